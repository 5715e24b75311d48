// The batches of a machine's log.
ghost use Rattle.std.specs.Prelude.{◌≡◌, ◌≤◌, ℕ, Some, IsSome, IfOk};
ghost use Rattle.reg_facts.specs.Consumers.{consumer_place};
ghost use Rattle.reg_machine.specs.History.{now_facts};
ghost use Rattle.reg_prov.specs.Wanted.{IsBatch};

use crate::known::pasts_of;
use crate::moments::moments_of;
use crate::ops::{Batch, batch_of};
use reg_base::SubjectId;
use reg_effect::Kept;
use reg_machine::Machine;
use std::alloc::{AllocError, Global};

/// The batch of at most so many entries of the log behind a place, for a provisioner, who is a
/// person. It is up to what happened before the clock. The group of an operation may be gone. Costs
/// the log's entries, the groups that were ever made, and what was ever noted of those on which the
/// provisioner itself ever held READ. The only error is out of memory.
pub fn batch_from<K: Kept>(
    alloc: Global,
    machine: &Machine<K>,
    place: u64,
    provisioner: SubjectId,
    max: u64,
) -> Result<Batch, AllocError>
    ensures { IfOk result (λ b. IsBatch machine.now.history machine.now.clock place provisioner max
        b.ops.items b.place) }
{
    machine.law_log_moments();
    let moments = moments_of(alloc, machine.log())?;
    let pasts = pasts_of(alloc, machine, provisioner)?;
    batch_of(alloc, &moments, machine.clock(), place, max, &pasts)
}

/// The batch behind the place of a consumer of the log, as `batch_from`. The consumer must stand,
/// and `max` be at least 1.
pub fn batch<K: Kept>(
    alloc: Global,
    machine: &Machine<K>,
    consumer: &[u8],
    provisioner: SubjectId,
    max: u64,
) -> Result<Batch, AllocError>
    requires stands { IsSome (consumer_place consumer.now (now_facts machine.now).consumers) }
    requires some { 1 ≤ max }
    ensures { IfOk result (λ b. (place : ℕ)
        → consumer_place consumer.now (now_facts machine.now).consumers ≡ Some place
        → IsBatch machine.now.history machine.now.clock place provisioner max b.ops.items b.place) }
{
    match machine.places().place(consumer) {
        Some(place) => batch_from(alloc, machine, place, provisioner, max),
        None => unreachable!(),
    }
}
