// What was assigned to one owner, at all moments.
ghost use Rattle.std.specs.Prelude.{◌≡◌, IfOk};
ghost use Rattle.reg_pit.specs.Lives.{had};
ghost use Rattle.reg_pit.specs.Owned.{row_at, rows_at};

use crate::assign_lives::AssignLife;
use crate::value_lives::{ValueLife, values_stood};
use reg_base::Moment;
use reg_terms::AssignRow;
use std::alloc::{AllocError, Global};
use std::marker::Model;

/// The life of an assignment with those of its values, in the order in which they were added.
#[derive(Drop)]
pub(crate) struct PastAssign {
    pub(crate) life: AssignLife,
    pub(crate) values: Vec<ValueLife>,
}

impl Model for PastAssign {
    ghost use Rattle.std.specs.Prelude.{List};
    ghost use Rattle.reg_pit.specs.declared.assign_lives.AssignLife.{AssignLife};
    ghost use Rattle.reg_pit.specs.declared.value_lives.ValueLife.{ValueLife};

    ghost Value = { AssignLife × List ValueLife };

    ghost view = { λ a. (a.life, a.values.items) };
}

impl PastAssign {
    /// Whether the assignment stood at a moment.
    fn had(&self, t: Moment) -> bool
        ensures { result ≡ had t self.now.0 }
    {
        self.life.had(t)
    }

    /// The assignment as it was at a moment.
    fn row_at(&self, alloc: Global, t: Moment) -> Result<AssignRow, AllocError>
        ensures { IfOk result (λ row. row ≡ row_at t self.now) }
    {
        let values = values_stood(alloc, &self.values, t)?;
        Ok(AssignRow {
            id: self.life.id,
            attribute: self.life.attribute,
            owner: self.life.owner,
            values,
        })
    }
}

/// Of some assignments those that stood at a moment, as they were then.
fn rows_at(alloc: Global, assigns: &[PastAssign], t: Moment) -> Result<Vec<AssignRow>, AllocError>
    ensures { IfOk result (λ rows. rows.items ≡ rows_at assigns.now t) }
{
    let mut rows = Vec::new(alloc);
    for assign in assigns {
        if assign.had(t) {
            rows.push(assign.row_at(alloc, t)?)?;
        }
    }
    Ok(rows)
}

/// What was assigned to one owner, at all moments. Contracts see the life of each assignment, by
/// id, with those of its values.
#[derive(Drop)]
pub struct AssignedPast {
    pub(crate) assigns: Vec<PastAssign>,
}

impl Model for AssignedPast {
    ghost use Rattle.std.specs.Prelude.{List};
    ghost use Rattle.reg_pit.specs.declared.assign_lives.AssignLife.{AssignLife};
    ghost use Rattle.reg_pit.specs.declared.value_lives.ValueLife.{ValueLife};

    ghost Value = { List (AssignLife × List ValueLife) };

    ghost view = { λ a. a.assigns.items };
}

impl AssignedPast {
    /// The assignments at a moment, by id, with the values that stood then in the order in which
    /// they were added. Costs a look at each assignment, and at each value ever added to one that
    /// stood then. The only error is out of memory.
    pub fn at(&self, alloc: Global, t: Moment) -> Result<Vec<AssignRow>, AllocError>
        ensures { IfOk result (λ rows. rows.items ≡ rows_at self.now t) }
    {
        rows_at(alloc, &self.assigns, t)
    }
}
