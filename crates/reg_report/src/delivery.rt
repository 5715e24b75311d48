// What is delivered of a batch.
ghost use Rattle.std.specs.Prelude.{IfOk};

use crate::asked::Unreported;
use crate::batch_asked::provision_asked;
use crate::batch_line::{op_lines, place_line};
use reg_effect::Kept;
use reg_machine::Machine;
use reg_prov::{batch_from, law_one_batch};
use reg_words::Provision;
use std::alloc::Global;

/// What is delivered of a batch.
#[derive(Drop)]
pub struct Delivery {
    /// The consumer's place, from which the batch goes on.
    pub place: u64,
    /// Where it ends.
    pub end: u64,
    /// The lines of its operations.
    pub lines: Vec<u8>,
    /// The line of its end.
    pub last: Vec<u8>,
}

ghost use Rattle.reg_report.specs.Delivered.{Delivers, IsReady};

/// The batch that is asked for, from the consumer's place on, by what happened before a machine's
/// clock: its lines, or why it is refused. A text that is no name is refused first, then what
/// doesn't stand, then a text that is no person's. Costs what making the batch costs, and a look at
/// a person for each operation.
pub fn deliver<K: Kept>(
    alloc: Global,
    machine: &Machine<K>,
    asked: &Provision,
) -> Result<Delivery, Unreported>
    ensures delivers { Delivers asked.now machine.now result }
    ensures ready { IfOk result (IsReady asked.now.consumer machine.now) }
{
    let (place, person) = provision_asked(alloc, machine.facts(), asked)?;
    let batch = batch_from(alloc, machine, place, person, asked.max)?;
    law_one_batch();
    let end = batch.place;
    let lines = op_lines(alloc, machine.facts(), &batch.ops)?;
    let last = place_line(alloc, end)?;
    Ok(Delivery {
        place,
        end,
        lines,
        last,
    })
}
