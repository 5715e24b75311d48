// The turns of a batch as they are noted.
ghost use Rattle.std.specs.Prelude.{◌≡◌, ◌==◌, ◌&&◌, [], ℕ, Some, IfOk, OnOk, if◌then◌else◌};
ghost use Rattle.std.specs.List.Sorted.{IsStrictlySortedBy};
ghost use Rattle.reg_prov.specs.Turns.{turn_at, turn_cmp};

use crate::turn::Turn;
use reg_base::{GroupId, SubjectId};
use std::alloc::{AllocError, Global};
use std::collections::BTreeMap;
use std::marker::Model;

/// Turns, one at most for each boundary and pair. Contracts see them in order.
#[derive(Drop)]
pub struct Turns {
    alloc: Global,
    /// What each pair turns to, by boundary, group and person.
    by_boundary: BTreeMap<(u64, GroupId, SubjectId), bool>,
}

impl Model for Turns {
    ghost use Rattle.std.specs.Prelude.{List, map};
    ghost use Rattle.reg_prov.specs.declared.turn.Turn.{Turn};
    ghost use Rattle.reg_prov.specs.Notes.{turn_of};

    ghost Value = { List Turn };

    ghost view = { λ t. map turn_of t.by_boundary.entries };
}

impl Turns {
    /// No turns. Takes no memory.
    pub fn new(alloc: Global) -> Turns
        ensures { result ≡ [] }
    {
        Turns {
            alloc,
            by_boundary: BTreeMap::new(alloc),
        }
    }

    /// Notes what a pair turns to at a boundary, in place of what was noted.
    pub fn set(
        &mut self,
        at: u64,
        group: GroupId,
        subject: SubjectId,
        on: bool,
    ) -> Result<(), AllocError>
        ensures { OnOk result ((n g s : ℕ) → turn_at self.new n g s
            ≡ (if (at == n) && ((group == g) && (subject == s)) then Some on
            else turn_at self.old n g s)) }
    {
        self.by_boundary.insert((at, group, subject), on)?;
        Ok(())
    }

    /// The turns, in order.
    pub fn list(&self) -> Result<Vec<Turn>, AllocError>
        ensures value { IfOk result (λ turns. turns.items ≡ self.now) }
        ensures ordered { IfOk result (λ turns. IsStrictlySortedBy turn_cmp turns.items) }
    {
        let mut turns = Vec::new(self.alloc);
        for (place, on) in &self.by_boundary {
            turns.push(Turn {
                at: place.0,
                group: place.1,
                subject: place.2,
                on: *on,
            })?;
        }
        Ok(turns)
    }
}
