// Recoded records on a disk, as a journal of format 2.
ghost use Rattle.std.specs.Prelude.{◌≡◌, ◌≤◌, List, ℕ, Option, true, false, option_map};
ghost use Rattle.std.specs.Prelude.{IfOk, IfErr, IfSome, OnOk};
ghost use Rattle.reg_outside.specs.Disk.{Changes, Leaves, Same, Only};
ghost use Rattle.reg_outside.specs.Faults.{Rose};
ghost use Rattle.reg_keep.specs.Frames.{AreShort, payloads_in, payloads_of_records};
ghost use Rattle.reg_keep.specs.Begin.{filled_with, is_unfit};
ghost use Rattle.reg_keep.specs.Keeping.{or_none};
ghost use Rattle.reg_keep.specs.declared.begin.InitFault.{InitFault};
ghost use Rattle.reg_recode.specs.Recoded.{payloads_recoded, AreRecoded, WasOrRecoded};

use reg_keep::{InitFault, Journal, Records};
use reg_outside::Disk;

/// Fills the disk with the journal of format 2 of these records, and gives it back. Where they are
/// the recoded records of a file of format 1, what is written opens to that file's payloads,
/// recoded.
///
/// A refusal is as `Journal::fill` says. `Exists` comes exactly where the file begins with the
/// header of format 1, or has more than nine bytes and doesn't begin with the header of format 2
/// and a closed gate; then nothing is written.
pub fn fill_recoded<E: Disk>(second: E, records: Records) -> Result<E, (InitFault, E)>
    requires short { AreShort (payloads_of_records records) }

    // After Ok its bytes and each image open to the payloads.
    ensures payloads { IfOk result (λ made. (held : Option (List ℕ)) → AreRecoded held records
        → IfSome held (λ bytes. IfSome (E.contents made) (λ file. payloads_in file
        ≡ payloads_recoded bytes))) }
    ensures written { IfOk result (λ made. (held : Option (List ℕ)) → AreRecoded held records
        → IfSome held (λ bytes. E.contents made
        ≡ option_map (filled_with (or_none (payloads_recoded bytes))) (E.contents second))) }
    ensures after { IfOk result (λ made. (held : Option (List ℕ)) → AreRecoded held records
        → (c : List ℕ) → E.may_leave made c
        → IfSome held (λ bytes. payloads_in c ≡ payloads_recoded bytes)) }
    ensures durable { IfOk result (λ made. Only (E.contents made) (E.may_leave made)) }
    ensures fit { OnOk result (IfSome (E.contents second) (λ bytes. is_unfit bytes ≡ false)) }
    ensures exists { IfErr result (λ e. e.0 ≡ InitFault.Exists
        → IfSome (E.contents second) (λ bytes. is_unfit bytes ≡ true)) }
    ensures fault { IfErr result (λ e. e.0 ≡ InitFault.Fault
        → Rose (E.faults second) (E.faults e.1)) }

    // A crash at any moment leaves what it might have left before, or a file that is damaged, or
    // opens to no payloads or to those of the file, recoded.
    ensures images { IfOk result (λ made. (held : Option (List ℕ)) → AreRecoded held records
        → Leaves E.moment E.left_since (WasOrRecoded (E.may_leave second) held) second made) }
    ensures images_err { IfErr result (λ e. (held : Option (List ℕ)) → AreRecoded held records
        → Leaves E.moment E.left_since (WasOrRecoded (E.may_leave second) held) second e.1) }

    // Where it is unfit, nothing is written.
    ensures untouched { IfErr result (λ e. IfSome (E.contents second) (λ bytes. is_unfit bytes
        ≡ true → Changes E.moment E.may_leave E.left_since Same second e.1)) }
    ensures same_err { IfErr result (λ e. IfSome (E.contents second) (λ bytes. is_unfit bytes
        ≡ true → E.contents e.1 ≡ E.contents second)) }
    ensures object { IfOk result (λ made. E.name made ≡ E.name second) }
    ensures object_err { IfErr result (λ e. E.name e.1 ≡ E.name second) }
    ensures later { IfOk result (λ made. E.faults second ≤ E.faults made) }
    ensures still { IfOk result (λ made. E.faults made ≡ E.faults second) }
    ensures still_exists { IfErr result (λ e. e.0 ≡ InitFault.Exists
        → E.faults e.1 ≡ E.faults second) }
    ensures later_err { IfErr result (λ e. E.faults second ≤ E.faults e.1) }
{
    match Journal::fill(second, records) {
        Ok(journal) => Ok(journal.into_disk()),
        Err((why, second)) => Err((why, second)),
    }
}
