// What holds of payloads, for crates above to cite: each law is the clause of a function that does
// nothing.
ghost use Rattle.std.specs.Prelude.{◌≡◌, ◌++◌, ◌<◌, ◌^◌, ℕ, List, Some, true, length};
ghost use Rattle.reg_terms.specs.declared.command.Command.{Command};
ghost use Rattle.reg_terms.specs.declared.command.Stamped.{Stamped};
ghost use Rattle.reg_ops.specs.Forms.{has_form};
ghost use Rattle.reg_wire.specs.Payload.{command_bytes, payload, stamped_of, AreFew, IsWritable};
ghost use Rattle.reg_wire.specs.OldPayload.{old_payload, stamped_of_old, IsOld, is_old};
ghost use Rattle.reg_wire.specs.OldPayload.{dates_left_out, old_command_bytes};

use reg_ops::law_commands;

/// The payload of a writable command reads back as that command.
pub fn payload_reads_back()
    ensures { (stamped : Stamped) → IsWritable stamped
        → stamped_of (payload stamped) ≡ Some stamped }
{
    law_commands();
}

/// The payload of format 1 of a writable command, where it has one, reads back as that command.
pub fn old_payload_reads_back()
    ensures { (stamped : Stamped) → IsWritable stamped → IsOld stamped
        → stamped_of_old (old_payload stamped) ≡ Some stamped }
{
    law_commands();
}

/// Bytes that are read are the payload of what they are read as, and that is writable.
pub fn read_is_payload()
    ensures { (bytes : List ℕ) (stamped : Stamped) → stamped_of bytes ≡ Some stamped
        → (payload stamped ≡ bytes) × IsWritable stamped }
{
    law_commands();
}

/// Bytes that are read in format 1 are the payload of format 1 of what they are read as, and that
/// is writable.
pub fn read_is_old_payload()
    ensures { (bytes : List ℕ) (stamped : Stamped) → stamped_of_old bytes ≡ Some stamped
        → (old_payload stamped ≡ bytes) × IsWritable stamped × IsOld stamped }
{
    law_commands();
}

/// The bytes of a command in format 2 are those of format 1 and behind them what that leaves out.
pub fn format_1_leaves_dates_out()
    ensures { (command : Command) → is_old command ≡ true
        → old_command_bytes command ++ dates_left_out command ≡ command_bytes command }
{}

/// A payload has fewer than 2^32 bytes, where no load in it lists more groups, rows and records
/// than there may be.
pub fn payload_is_short()
    ensures { (stamped : Stamped) → IsWritable stamped → AreFew stamped.command
        → length (payload stamped) < 2 ^ 32 }
{
    law_commands();
}

/// Commands whose fields have their forms are equal where their bytes are.
pub fn same_bytes_same_command()
    ensures { (a b : Command) → has_form a ≡ true → has_form b ≡ true
        → command_bytes a ≡ command_bytes b → a ≡ b }
{
    law_commands();
}
