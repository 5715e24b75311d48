// What holds of recoded payloads, for crates above to cite: a law is the clause of a function that
// does nothing.
ghost use Rattle.std.specs.Prelude.{◌≡◌, ℕ, List};
ghost use Rattle.reg_wire.specs.Payload.{stamped_of};
ghost use Rattle.reg_wire.specs.OldPayload.{stamped_of_old};
ghost use Rattle.reg_recode.specs.Recoded.{recoded_payload};

use reg_wire::{payload_reads_back, read_is_old_payload};

/// A recoded payload says in format 2 what the payload says in format 1, and nothing where that
/// says nothing.
pub fn recoded_says_the_same()
    ensures { (bytes : List ℕ) → stamped_of (recoded_payload bytes) ≡ stamped_of_old bytes }
{
    payload_reads_back();
    read_is_old_payload();
}
