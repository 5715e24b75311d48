// Ways from a group down to a person.
ghost use Rattle.std.specs.Prelude.{◌≡◌};

use reg_terms::MemberRow;
use std::marker::Model;

/// The rows of one way from a group down to a person, or to a composite that has the person.
/// Contracts see the list of rows.
#[derive(Drop)]
pub struct Way {
    rows: Vec<MemberRow>,
}

impl Model for Way {
    ghost use Rattle.std.specs.Prelude.{List};
    ghost use Rattle.reg_terms.specs.declared.rows.MemberRow.{MemberRow};

    ghost Value = { List MemberRow };

    ghost view = { λ w. w.rows.items };
}

impl Way {
    pub(crate) fn new(rows: Vec<MemberRow>) -> Way
        ensures { result ≡ rows.items }
    {
        Way { rows }
    }

    /// The rows, from the group downwards.
    pub fn rows(&self) -> &[MemberRow]
        ensures { result.now ≡ self.now }
    {
        &self.rows
    }
}
