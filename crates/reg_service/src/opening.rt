// The machine of a journal's records. A stamped command is dropped by a call of `drop`: dropped in
// place, its command is taken apart by its kinds at each exit, and its proof is then ten times as
// large.
ghost use Rattle.std.specs.Prelude.{◌≡◌, ◌≤◌, is_some, true, ℕ, Ok, Err, Some, None, IfOk, IfErr};
ghost use Rattle.std.specs.Prelude.{IsErrOf};
ghost use Rattle.reg_machine.specs.History.{start, appended};
ghost use Rattle.reg_machine.specs.Keys.{is_free};
ghost use Rattle.reg_machine.specs.Refusals.{refusal};
ghost use Rattle.reg_keep.specs.declared.open.OpenFault.TheVariants.{Damaged};
ghost use Rattle.reg_wire.specs.Payload.{IsWritable};
ghost use Rattle.reg_service.specs.Opening.{judged, or_place, accepted, after_stamped};
ghost use Rattle.reg_service.specs.Opening.{after_payload};

use crate::uncounted::{advance, apply};
use reg_base::{Entity, Moment, Text};
use reg_effect::Incremental;
use reg_facts::{Command, Stamped};
use reg_keep::{OpenFault, Records};
use reg_machine::Machine;
use reg_wire::decode;
use std::alloc::{AllocError, Global};

/// Whether a caller has no command under this key, where there is one.
fn is_free(machine: &Machine<Incremental>, by: &Entity, key: &Option<Text>) -> bool
    ensures { result ≡ is_free machine.now.history by.now key.now }
{
    match key {
        Some(key) => machine.keyed(by, key.bytes()).is_none(),
        None => true,
    }
}

/// Whether a command is refused now.
fn is_refused(
    alloc: Global,
    machine: &Machine<Incremental>,
    by: &Entity,
    command: &Command,
) -> Result<bool, AllocError>
    ensures { IfOk result (λ b. b
        ≡ is_some (refusal machine.now.history machine.now.clock by.now command.now)) }
{
    let found = machine.decide(alloc, by, command)?;
    Ok(found.is_some())
}

/// The machine with its clock at a later moment.
fn moved(
    alloc: Global,
    machine: Machine<Incremental>,
    to: Moment,
) -> Result<Machine<Incremental>, AllocError>
    requires { machine.clock ≤ to }
    ensures { IfOk result (λ m. m ≡ record { history = machine.history; clock = to }) }
{
    match advance(alloc, machine, to) {
        Ok(machine) => Ok(machine),
        Err(_) => Err(AllocError),
    }
}

/// The machine after a command that isn't refused, and whose key is free.
fn taken(
    alloc: Global,
    machine: Machine<Incremental>,
    stamped: Stamped,
) -> Result<Option<Machine<Incremental>>, AllocError>
    requires allowed { refusal machine.history machine.clock stamped.by stamped.command ≡ None }
    requires writable { IsWritable stamped }
    requires free { is_free machine.history stamped.by stamped.key ≡ true }
    ensures { IfOk result (λ found. found
        ≡ Some (appended machine stamped.by stamped.key stamped.command)) }
{
    let Stamped {
        by,
        key,
        command,
        ..
    } = stamped;
    let applied = apply(alloc, machine, &by, key, command);
    drop(by);
    match applied {
        Ok(machine) => Ok(Some(machine)),
        Err(_) => Err(AllocError),
    }
}

/// The machine after a command at the clock, whose key is free. None where it is refused.
fn decided(
    alloc: Global,
    machine: Machine<Incremental>,
    stamped: Stamped,
) -> Result<Option<Machine<Incremental>>, AllocError>
    requires writable { IsWritable stamped }
    requires free { is_free machine.history stamped.by stamped.key ≡ true }
    ensures { IfOk result (λ found. found
        ≡ accepted machine (record {
          at = machine.clock;
          by = stamped.by;
          key = stamped.key;
          command = stamped.command;
        }) (refusal machine.history machine.clock stamped.by stamped.command)) }
{
    match is_refused(alloc, &machine, &stamped.by, &stamped.command) {
        Ok(false) => taken(alloc, machine, stamped),
        Ok(true) => {
            drop(stamped);
            Ok(None)
        }
        Err(AllocError) => {
            drop(stamped);
            Err(AllocError)
        }
    }
}

/// The machine after a command that acts at its moment, whose key is free. None where it is
/// refused.
fn act(
    alloc: Global,
    machine: Machine<Incremental>,
    stamped: Stamped,
) -> Result<Option<Machine<Incremental>>, AllocError>
    requires writable { IsWritable stamped }
    requires later { machine.clock ≤ stamped.at }
    requires free { is_free machine.history stamped.by stamped.key ≡ true }
    ensures { IfOk result (λ found. found
        ≡ accepted machine stamped
        (refusal machine.history stamped.at stamped.by stamped.command)) }
{
    match moved(alloc, machine, stamped.at) {
        Ok(machine) => decided(alloc, machine, stamped),
        Err(AllocError) => {
            drop(stamped);
            Err(AllocError)
        }
    }
}

/// The machine after a stamped command. None where its moment is less than the clock, its caller
/// has its key already, or it is refused.
pub fn accept(
    alloc: Global,
    machine: Machine<Incremental>,
    stamped: Stamped,
) -> Result<Option<Machine<Incremental>>, AllocError>
    requires { IsWritable stamped }
    ensures { IfOk result (λ found. found ≡ after_stamped machine (Some stamped)) }
{
    let falls = stamped.at.micros() < machine.clock().micros();
    if falls || !is_free(&machine, &stamped.by, &stamped.key) {
        drop(stamped);
        return Ok(None);
    }
    act(alloc, machine, stamped)
}

/// The machine after a payload. None where it is no command's, or that command isn't accepted.
#[tactic(auto, unfolding(crate::specs::Opening::after_payload))]
fn take_payload(
    alloc: Global,
    machine: Machine<Incremental>,
    bytes: &[u8],
) -> Result<Option<Machine<Incremental>>, AllocError>
    ensures { IfOk result (λ found. found ≡ after_payload machine bytes.now) }
{
    match decode(alloc, bytes)? {
        Some(stamped) => accept(alloc, machine, stamped),
        None => Ok(None),
    }
}

/// The machine after a record, or the record's place.
fn take_record(
    alloc: Global,
    machine: Machine<Incremental>,
    place: u64,
    bytes: &[u8],
) -> Result<Machine<Incremental>, OpenFault>
    ensures ok { IfOk result (λ m. or_place place (after_payload machine bytes.now) ≡ Ok m) }
    ensures damaged { IfErr result (λ e. (at : ℕ) → e ≡ Damaged at
        → or_place place (after_payload machine bytes.now) ≡ Err at) }
    ensures other { IsErrOf result OpenFault.OtherFormat → ⊥ }
    ensures fault { IsErrOf result OpenFault.Fault → ⊥ }
{
    match take_payload(alloc, machine, bytes) {
        Ok(Some(machine)) => Ok(machine),
        Ok(None) => Err(OpenFault::Damaged(place)),
        Err(AllocError) => Err(OpenFault::NoMemory),
    }
}

/// The machine of these records, each of which is let go once it is taken.
pub fn replay(alloc: Global, records: Records) -> Result<Machine<Incremental>, OpenFault>
    ensures ok { IfOk result (λ m. judged start records ≡ Ok m) }
    ensures damaged { IfErr result (λ e. (at : ℕ) → e ≡ Damaged at
        → judged start records ≡ Err at) }
    ensures other { IsErrOf result OpenFault.OtherFormat → ⊥ }
    ensures fault { IsErrOf result OpenFault.Fault → ⊥ }
{
    let Ok(mut machine) = Machine::start(alloc) else {
        return Err(OpenFault::NoMemory);
    };
    let mut records = records;
    'records: while let Some((place, payload)) = records.take_first() {
        machine = take_record(alloc, machine, place, payload.bytes())?;
    }
    Ok(machine)
}
