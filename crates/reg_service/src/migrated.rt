// The records of format 1 of a journal, judged and recoded at once: each payload is decoded once.
ghost use Rattle.std.specs.Prelude.{◌≡◌, ◌<◌, ◌^◌, ℕ, length, Ok, Err, IfOk, IfErr, IfSome, OnOk};
ghost use Rattle.std.specs.Prelude.{IsErrOf};
ghost use Rattle.reg_machine.specs.History.{State, start};
ghost use Rattle.reg_keep.specs.Frames.{AreShort, payloads_of_records};
ghost use Rattle.reg_keep.specs.declared.open.OpenFault.TheVariants.{Damaged};
ghost use Rattle.reg_wire.specs.Payload.{IsWritable};
ghost use Rattle.reg_recode.specs.Recoded.{recoded, recoded_payload};
ghost use Rattle.reg_service.specs.Opening.{after_old_payload, after_stamped, judged_old, or_place};

use crate::opening::accept;
use reg_base::Bytes;
use reg_effect::Incremental;
use reg_facts::Stamped;
use reg_keep::{OpenFault, Records};
use reg_machine::Machine;
use reg_recode::recode_payload;
use std::alloc::{AllocError, Global};

/// The machine after what a payload says. None where that is no command, or isn't accepted.
fn accept_any(
    alloc: Global,
    machine: Machine<Incremental>,
    found: Option<Stamped>,
) -> Result<Option<Machine<Incremental>>, AllocError>
    requires { IfSome found (λ stamped. IsWritable stamped) }
    ensures { IfOk result (λ after. after ≡ after_stamped machine found) }
{
    match found {
        Some(stamped) => accept(alloc, machine, stamped),
        None => Ok(None),
    }
}

/// The machine after what the payload at a place says, or the place.
fn accept_at(
    alloc: Global,
    machine: Machine<Incremental>,
    place: u64,
    found: Option<Stamped>,
) -> Result<Machine<Incremental>, OpenFault>
    requires { IfSome found (λ stamped. IsWritable stamped) }
    ensures ok { IfOk result (λ m. or_place place (after_stamped machine found) ≡ Ok m) }
    ensures damaged { IfErr result (λ e. (at : ℕ) → e ≡ Damaged at
        → or_place place (after_stamped machine found) ≡ Err at) }
    ensures other { IsErrOf result OpenFault.OtherFormat → ⊥ }
    ensures fault { IsErrOf result OpenFault.Fault → ⊥ }
{
    match accept_any(alloc, machine, found) {
        Ok(Some(machine)) => Ok(machine),
        Ok(None) => Err(OpenFault::Damaged(place)),
        Err(AllocError) => Err(OpenFault::NoMemory),
    }
}

/// The machine after a record of format 1, and the record's payload of format 2; or its place.
#[tactic(auto, unfolding(crate::specs::Opening::after_old_payload))]
fn judge_record(
    alloc: Global,
    machine: Machine<Incremental>,
    place: u64,
    bytes: &[u8],
) -> Result<(Machine<Incremental>, Bytes), OpenFault>
    ensures ok { IfOk result (λ r. or_place place (after_old_payload machine bytes.now)
        ≡ Ok r.0) }
    ensures payload { IfOk result (λ r. r.1 ≡ recoded_payload bytes.now) }
    ensures short { IfOk result (λ r. length r.1 < 2 ^ 32) }
    ensures damaged { IfErr result (λ e. (at : ℕ) → e ≡ Damaged at
        → or_place place (after_old_payload machine bytes.now) ≡ Err at) }
    ensures other { IsErrOf result OpenFault.OtherFormat → ⊥ }
    ensures fault { IsErrOf result OpenFault.Fault → ⊥ }
{
    let (found, payload) = recode_payload(alloc, bytes)?;
    let machine = accept_at(alloc, machine, place, found)?;
    Ok((machine, payload))
}

/// The records of format 2 of these records of format 1, once a registry accepts all their
/// commands. Each is let go once it is taken.
pub fn judge_old(alloc: Global, records: Records) -> Result<Records, OpenFault>
    ensures records { IfOk result (λ made. made ≡ recoded records) }
    ensures short { IfOk result (λ made. AreShort (payloads_of_records made)) }
    ensures judged { OnOk result ((s : State) × (judged_old start records ≡ Ok s)) }
    ensures damaged { IfErr result (λ e. (at : ℕ) → e ≡ Damaged at
        → judged_old start records ≡ Err at) }
    ensures other { IsErrOf result OpenFault.OtherFormat → ⊥ }
    ensures fault { IsErrOf result OpenFault.Fault → ⊥ }
{
    let Ok(mut machine) = Machine::start(alloc) else {
        return Err(OpenFault::NoMemory);
    };
    let mut left = records;
    let mut made = Records::new(alloc)?;
    'records: while let Some((place, before)) = left.take_first() {
        let (next, after) = judge_record(alloc, machine, place, before.bytes())?;
        machine = next;
        made.push((place, after))?;
    }
    drop(machine);
    Ok(made)
}
