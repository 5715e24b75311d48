// Payloads of format 1 as payloads of format 2. A command is dropped by a call of `drop`: dropped in
// place, it is taken apart by its kinds, and its proof is then ten times as large.
ghost use Rattle.std.specs.Prelude.{◌≡◌, ◌<◌, ◌^◌, length, IfOk, IfSome};
ghost use Rattle.reg_wire.specs.Fields.{entity_text};
ghost use Rattle.reg_wire.specs.Payload.{payload, IsWritable};
ghost use Rattle.reg_wire.specs.OldPayload.{old_payload, stamped_of_old, IsOld};
ghost use Rattle.reg_recode.specs.Recoded.{recoded_payload};

use reg_base::{Bytes, Entity};
use reg_terms::Stamped;
use reg_wire::{dates_left_out, decode_old, format_1_leaves_dates_out};
use std::alloc::{AllocError, Global};

/// The least length that a frame's four bytes don't hold.
const TOO_LONG: u64 = 4_294_967_296;

/// How many bytes stand in front of the text of who gave a command: its moment, and the text's
/// length.
const FRONT: usize = 10;

/// The byte behind that text where the command has no key.
const NO_KEY: u8 = 0;

/// How many bytes more a payload has in format 2, at most.
const MORE: usize = 3;

/// The length of the text that names an entity.
fn text_length(entity: &Entity) -> usize
    ensures { result ≡ length (entity_text entity.now) }
{
    match entity {
        Entity::Person(text) => text.bytes().len(),
        Entity::Group(name) => 6 + name.bytes().len(),
        Entity::System => 19,
        Entity::Everyone => 16,
    }
}

/// The payload of format 2 of a command whose payload of format 1 the bytes are: the byte for no
/// key comes behind who gave it, and the dates that format 1 leaves out behind its fields.
#[tactic(auto, using(crate::proofs::Splices::long_enough, crate::proofs::Splices::spliced))]
fn spliced(alloc: Global, bytes: &[u8], stamped: &Stamped) -> Result<Vec<u8>, AllocError>
    requires old { IsOld stamped.now }
    requires bytes { old_payload stamped.now ≡ bytes.now }
    ensures { IfOk result (λ made. made.items ≡ payload stamped.now) }
{
    format_1_leaves_dates_out();
    let mut made = Vec::with_capacity(alloc, bytes.len() + MORE)?;
    let (front, behind) = bytes.split_at(FRONT + text_length(&stamped.by));
    made.extend_from_slice(front)?;
    made.push(NO_KEY)?;
    made.extend_from_slice(behind)?;
    made.extend_from_slice(dates_left_out(&stamped.command))?;
    Ok(made)
}

/// The same payload. Where no frame holds it the answer is out of memory: a load that comes that
/// near 2^32 bytes lists far more than may stand.
fn short_payload(alloc: Global, bytes: &[u8], stamped: &Stamped) -> Result<Bytes, AllocError>
    requires old { IsOld stamped.now }
    requires bytes { old_payload stamped.now ≡ bytes.now }
    ensures value { IfOk result (λ made. made ≡ payload stamped.now) }
    ensures short { IfOk result (λ made. length made < 2 ^ 32) }
{
    let made = spliced(alloc, bytes, stamped)?;
    if made.len() as u64 >= TOO_LONG {
        return Err(AllocError);
    }
    Bytes::of(alloc, &made)
}

/// The command that a payload of format 1 is, and its payload of format 2; the empty one where it
/// is no command's. The only error is out of memory, which also comes where no frame holds the
/// payload.
#[tactic(auto, unfolding(crate::specs::Recoded::recoded_payload))]
pub fn recode_payload(alloc: Global, bytes: &[u8]) -> Result<(Option<Stamped>, Bytes), AllocError>
    ensures command { IfOk result (λ r. r.0 ≡ stamped_of_old bytes.now) }
    ensures writable { IfOk result (λ r. IfSome r.0 (λ stamped. IsWritable stamped)) }
    ensures payload { IfOk result (λ r. r.1 ≡ recoded_payload bytes.now) }
    ensures short { IfOk result (λ r. length r.1 < 2 ^ 32) }
{
    match decode_old(alloc, bytes)? {
        Some(stamped) => match short_payload(alloc, bytes, &stamped) {
            Ok(made) => Ok((Some(stamped), made)),
            Err(AllocError) => {
                drop(stamped);
                Err(AllocError)
            }
        },
        None => Ok((None, Bytes::of(alloc, b"")?)),
    }
}
