// The records of a journal up to a moment.
ghost use Rattle.std.specs.Prelude.{◌≡◌, nat_le, IfOk};
ghost use Rattle.std.specs.List.{take_while};
ghost use Rattle.reg_wire.specs.Payload.{stamped_of};
ghost use Rattle.reg_asof.specs.Then.{acts_by, is_by};

use reg_base::Moment;
use reg_facts::Stamped;
use reg_keep::Records;
use reg_wire::decode;
use std::alloc::{AllocError, Global};

/// Whether a command acts by a moment.
fn is_by(stamped: &Stamped, at: Moment) -> bool
    ensures { result ≡ nat_le stamped.now.at at }
{
    stamped.at.micros() <= at.micros()
}

/// Whether a payload's command acts by a moment. So does what is no command's.
fn acts_by(alloc: Global, payload: &[u8], at: Moment) -> Result<bool, AllocError>
    ensures { IfOk result (λ b. b ≡ acts_by at (stamped_of payload.now)) }
{
    match decode(alloc, payload)? {
        Some(stamped) => {
            let acts = is_by(&stamped, at);
            // By a call: dropped in place it would be taken apart by its kinds.
            drop(stamped);
            Ok(acts)
        }
        None => Ok(true),
    }
}

/// The records up to the first whose command acts after a moment.
pub fn front_to(alloc: Global, records: Records, at: Moment) -> Result<Records, AllocError>
    ensures { IfOk result (λ front. front ≡ take_while (is_by at) records) }
{
    let mut front = Records::new(alloc)?;
    let mut records = records;
    'records: while let Some((place, payload)) = records.take_first() {
        if !acts_by(alloc, payload.bytes(), at)? {
            return Ok(front);
        }
        front.push((place, payload))?;
    }
    Ok(front)
}
