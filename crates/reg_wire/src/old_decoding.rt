// Stamped commands from their payloads of format 1.
ghost use Rattle.std.specs.Prelude.{◌≡◌, ◌++◌, IfOk, IfSome, IfNone};
ghost use Rattle.reg_wire.specs.Steps.{Gives};
ghost use Rattle.reg_wire.specs.Payload.{IsWritable};
ghost use Rattle.reg_wire.specs.OldPayload.{old_payload, old_command_of, old_stamped_at, IsOld};
ghost use Rattle.reg_wire.specs.OldPayload.{is_old, stamped_of_old, left_out, left_out_behind};
ghost use Rattle.reg_wire.specs.OldPayload.{dates_left_out};
ghost use Rattle.reg_terms.specs.declared.command.Stamped.{Stamped};

use crate::decoding::whole_command_of;
use crate::encoding::code_of;
use crate::fault::ReadFault;
use crate::fields::{entity_at, moment_at};
use reg_base::Moment;
use reg_ops::{CommandKind, command_row, law_commands};
use reg_terms::{Command, SetOp, Stamped};
use std::alloc::{AllocError, Global};

/// Whether format 1 has the command: it has no union, and no date of a grant.
fn is_old(command: &Command) -> bool
    ensures { result ≡ is_old command.now }
{
    match command {
        Command::CompositeSet { kind, .. } => !matches!(kind, SetOp::Union),
        Command::GrantAdd { from, until, .. } => from.is_none() && until.is_none(),
        _ => true,
    }
}

/// What format 1 leaves out behind the fields of a command of this code: of a grant that is added
/// a beginning and an end, and neither of them is told.
fn left_out(code: u8) -> &'static [u8]
    ensures { result.now ≡ left_out code }
{
    if code == command_row(CommandKind::GrantAdd).code {
        b"\0\0"
    } else {
        b""
    }
}

/// What format 1 leaves out behind the fields of a command: the dates of a grant that is added, as
/// format 2 has them where neither is told; nothing behind those of others.
pub fn dates_left_out(command: &Command) -> &'static [u8]
    ensures { result.now ≡ dates_left_out command.now }
{
    left_out(code_of(command))
}

/// The bytes of a command of format 1, and behind them what that leaves out.
fn with_dates(alloc: Global, bytes: &[u8]) -> Result<Vec<u8>, AllocError>
    ensures { IfOk result (λ whole. whole.items ≡ bytes.now ++ left_out_behind bytes.now) }
{
    let mut whole = Vec::new(alloc);
    whole.extend_from_slice(bytes)?;
    if let [code, ..] = bytes {
        whole.extend_from_slice(left_out(*code))?;
    }
    Ok(whole)
}

/// The command of format 1 that the bytes are, all of them.
#[tactic(auto, unfolding(crate::specs::OldPayload::old_command_of))]
fn old_command_of(alloc: Global, bytes: &[u8]) -> Result<Command, ReadFault>
    ensures { Gives (λ command. command) result (old_command_of bytes.now) }
{
    let whole = match with_dates(alloc, bytes) {
        Ok(whole) => whole,
        Err(_) => return Err(ReadFault::Memory),
    };
    let command = match whole_command_of(alloc, &whole) {
        Ok(found) => found,
        Err(fault) => return Err(fault),
    };
    if !is_old(&command) {
        drop(command);
        return Err(ReadFault::Malformed);
    }
    Ok(command)
}

/// The stamped command of a moment and what is behind it in format 1, which has no keys.
#[tactic(auto, unfolding(crate::specs::OldPayload::old_stamped_at))]
fn old_stamped_at(alloc: Global, at: Moment, bytes: &[u8]) -> Result<Stamped, ReadFault>
    ensures { Gives (λ stamped. stamped) result (old_stamped_at at bytes.now) }
{
    let (by, rest) = entity_at(alloc, bytes)?;
    match old_command_of(alloc, rest) {
        Ok(command) => Ok(Stamped {
            at,
            by,
            key: None,
            command,
        }),
        Err(fault) => Err(fault),
    }
}

/// The stamped command whose payload of format 1 the bytes are.
#[tactic(auto, unfolding(crate::specs::OldPayload::stamped_of_old))]
fn stamped_of_old(alloc: Global, bytes: &[u8]) -> Result<Stamped, ReadFault>
    ensures { Gives (λ stamped. stamped) result (stamped_of_old bytes.now) }
{
    match moment_at(bytes) {
        Ok((at, rest)) => old_stamped_at(alloc, at, rest),
        Err(fault) => Err(fault),
    }
}

/// The stamped command whose payload the bytes are in format 1. None exactly where they are the
/// payload of no stamped command there; the only error is out of memory.
pub fn decode_old(alloc: Global, bytes: &[u8]) -> Result<Option<Stamped>, AllocError>
    ensures value { IfOk result (λ found. found ≡ stamped_of_old bytes.now) }

    // What is found has these bytes as its payload of format 1, and nothing is found only where no
    // stamped command has.
    ensures found { IfOk result (λ found. IfSome found (λ stamped. IsWritable stamped
        × IsOld stamped × (old_payload stamped ≡ bytes.now))) }
    ensures none { IfOk result (λ found. IfNone found ((stamped : Stamped) → IsWritable stamped
        → IsOld stamped → old_payload stamped ≡ bytes.now → ⊥)) }
{
    law_commands();
    match stamped_of_old(alloc, bytes) {
        Ok(stamped) => Ok(Some(stamped)),
        Err(ReadFault::Malformed) => Ok(None),
        Err(ReadFault::Memory) => Err(AllocError),
    }
}
