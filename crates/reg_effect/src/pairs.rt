// A list of memberships.
ghost use Rattle.std.specs.Prelude.{◌≡◌, [], ◌∷◌, ◌++◌, OnOk, OnErr};

use reg_base::{GroupId, SubjectId};
use std::alloc::{AllocError, Global};
use std::marker::Model;

/// A list of pairs of a group and a person. Contracts see the list.
#[derive(Drop)]
pub struct Pairs {
    items: Vec<(GroupId, SubjectId)>,
}

impl Model for Pairs {
    ghost use Rattle.std.specs.Prelude.{List, ℕ};

    ghost Value = { List (ℕ × ℕ) };

    ghost view = { λ p. p.items.items };
}

impl Pairs {
    /// The empty list.
    pub fn new(alloc: Global) -> Pairs
        ensures { result ≡ [] }
    {
        Pairs {
            items: Vec::new(alloc),
        }
    }

    /// Adds a pair at the end. Out of memory the list stays as it was.
    pub fn push(&mut self, item: (GroupId, SubjectId)) -> Result<(), AllocError>
        ensures ok { OnOk result (self.new ≡ self.old ++ item ∷ []) }
        ensures err { OnErr result (self.new ≡ self.old) }
    {
        self.items.push(item)?;
        Ok(())
    }

    /// The pairs.
    pub fn list(&self) -> &[(GroupId, SubjectId)]
        ensures { result.now ≡ self.now }
    {
        &self.items
    }
}
