// The operations of a batch.
ghost use Rattle.std.specs.Prelude.{◌≡◌, IfOk, map};
ghost use Rattle.std.specs.List.Sorted.{IsNonDecreasing};
ghost use Rattle.reg_prov.specs.Batches.{IsBatchOf};
ghost use Rattle.reg_prov.specs.Pasts.{AreByGroup, want_in};
ghost use Rattle.reg_prov.specs.Turns.{op_of};

use crate::ends::{batch_end, start_of};
use crate::past::{GroupPast, turns_of};
use crate::target::TargetOp;
use crate::turn::Turn;
use reg_base::Moment;
use std::alloc::{AllocError, Global};

/// The operations of a batch in order, and the number of the log's entry where it ends.
#[derive(Drop)]
pub struct Batch {
    pub ops: Vec<TargetOp>,
    pub place: u64,
}

/// The operations of turns.
fn ops_of(alloc: Global, turns: &[Turn]) -> Result<Vec<TargetOp>, AllocError>
    ensures { IfOk result (λ ops. ops.items ≡ map op_of turns.now) }
{
    turns.iter().map(|turn| turn.op()).collect(alloc)
}

/// The batch of at most so many entries behind a place, in the log whose entries have these
/// moments, by what is known of the groups. Costs the entries that it goes through, and for each
/// limit of an interval a binary search and a look at all intervals of its pair. The only error is
/// out of memory.
pub fn batch_of(
    alloc: Global,
    moments: &[Moment],
    clock: Moment,
    place: u64,
    most: u64,
    pasts: &[GroupPast],
) -> Result<Batch, AllocError>
    requires rise { IsNonDecreasing moments.now }
    requires ordered { AreByGroup pasts.now }
    ensures { IfOk result (λ b. IsBatchOf (want_in pasts.now) moments.now clock place most
        b.ops.items b.place) }
{
    let end = batch_end(moments, clock, place, most);
    let start = start_of(moments, place);
    let turns = turns_of(alloc, moments, start, end, pasts)?;
    let ops = ops_of(alloc, &turns)?;
    Ok(Batch { ops, place: end })
}
