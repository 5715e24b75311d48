// Stamped commands from their payloads.
ghost use Rattle.std.specs.Prelude.{◌≡◌, IfOk, IfSome, IfNone};
ghost use Rattle.reg_wire.specs.Steps.{Gives};
ghost use Rattle.reg_wire.specs.Payload.{payload, stamped_at, stamped_of, whole_command_of};
ghost use Rattle.reg_wire.specs.Payload.{IsWritable};
ghost use Rattle.reg_terms.specs.declared.command.Stamped.{Stamped};

use crate::fault::ReadFault;
use crate::fields::{entity_at, key_at, moment_at};
use crate::reading::command_of;
use reg_base::Moment;
use reg_ops::{key_fits, law_commands, takes_key};
use reg_terms::{Command, Stamped};
use std::alloc::{AllocError, Global};

/// The command that the bytes are, all of them.
#[tactic(auto, unfolding(crate::specs::Payload::whole_command_of))]
pub(crate) fn whole_command_of(alloc: Global, bytes: &[u8]) -> Result<Command, ReadFault>
    ensures { Gives (λ command. command) result (whole_command_of bytes.now) }
{
    let (command, rest) = match command_of(alloc, bytes) {
        Ok(found) => found,
        Err(fault) => return Err(fault),
    };
    if !rest.is_empty() {
        drop(command);
        return Err(ReadFault::Malformed);
    }
    Ok(command)
}

/// The stamped command of a moment and what is behind it. A load with a key is none.
#[tactic(auto, unfolding(crate::specs::Payload::stamped_at))]
fn stamped_at(alloc: Global, at: Moment, bytes: &[u8]) -> Result<Stamped, ReadFault>
    ensures { Gives (λ stamped. stamped) result (stamped_at at bytes.now) }
{
    let (by, rest) = entity_at(alloc, bytes)?;
    let (key, rest) = key_at(alloc, rest)?;
    let command = match whole_command_of(alloc, rest) {
        Ok(found) => found,
        Err(fault) => return Err(fault),
    };
    if !key_fits(takes_key(&command), &key) {
        drop(command);
        return Err(ReadFault::Malformed);
    }
    Ok(Stamped {
        at,
        by,
        key,
        command,
    })
}

/// The stamped command whose payload the bytes are.
#[tactic(auto, unfolding(crate::specs::Payload::stamped_of))]
fn stamped_of(alloc: Global, bytes: &[u8]) -> Result<Stamped, ReadFault>
    ensures { Gives (λ stamped. stamped) result (stamped_of bytes.now) }
{
    match moment_at(bytes) {
        Ok((at, rest)) => stamped_at(alloc, at, rest),
        Err(fault) => Err(fault),
    }
}

/// The stamped command whose payload the bytes are in format 2. None exactly where they are the
/// payload of no stamped command; the only error is out of memory.
pub fn decode(alloc: Global, bytes: &[u8]) -> Result<Option<Stamped>, AllocError>
    ensures value { IfOk result (λ found. found ≡ stamped_of bytes.now) }

    // What is found has these bytes as its payload, and nothing is found only where no stamped
    // command has.
    ensures found { IfOk result (λ found. IfSome found (λ stamped. IsWritable stamped
        × (payload stamped ≡ bytes.now))) }
    ensures none { IfOk result (λ found. IfNone found ((stamped : Stamped) → IsWritable stamped
        → payload stamped ≡ bytes.now → ⊥)) }
{
    law_commands();
    match stamped_of(alloc, bytes) {
        Ok(stamped) => Ok(Some(stamped)),
        Err(ReadFault::Malformed) => Ok(None),
        Err(ReadFault::Memory) => Err(AllocError),
    }
}
