// Migrating: a journal of format 1 on one disk, written as one of format 2 on another. Its commands
// are judged while their payloads are recoded, before anything is written.
ghost use Rattle.std.specs.Prelude.{◌≡◌, ◌≤◌, ℕ, List, Option, IfOk, IfSome, OnOk};
ghost use Rattle.reg_outside.specs.Disk.{Changes, Leaves, Same, Only};
ghost use Rattle.reg_keep.specs.Frames.{AreShort, payloads_of_records};
ghost use Rattle.reg_recode.specs.Recoded.{AreRecoded};
ghost use Rattle.reg_service.specs.Opening.{opens, opens_old};
ghost use Rattle.reg_service.specs.Migrating.{AreMigrated, OpenedOld, WasOrMigrated, MigrateEnds};
ghost use Rattle.reg_service.specs.Migrating.{fault_of_fill, fault_of_open};

use crate::migrated::judge_old;
use reg_keep::{InitFault, OpenFault, Records, read_old};
use reg_outside::Disk;
use reg_recode::{fill_recoded, recoded_says_the_same};
use std::alloc::Global;
use thiserror::Error;

/// Why a journal isn't migrated.
#[derive(Clone, Copy, Debug, PartialEq, Eq, Error)]
pub enum MigrateFault {
    /// The first file begins with the header of format 2.
    #[error("other format")]
    OtherFormat,
    /// The first file's header isn't whole, or its frame at this place is broken, or has the
    /// payload of no command in format 1, or of one that falls in time or is refused there.
    #[error("damaged at {0}")]
    Damaged(u64),
    /// The second file holds a journal or other data.
    #[error("the second file holds a journal or other data")]
    Exists,
    /// One of the two disks failed.
    #[error("the disk failed")]
    Disk,
    /// Memory ran out.
    #[error("out of memory")]
    Memory,
}

fn fault_of_open(fault: OpenFault) -> MigrateFault
    ensures { result ≡ fault_of_open fault }
{
    match fault {
        OpenFault::Damaged(at) => MigrateFault::Damaged(at),
        OpenFault::OtherFormat => MigrateFault::OtherFormat,
        OpenFault::Fault => MigrateFault::Disk,
        OpenFault::NoMemory => MigrateFault::Memory,
    }
}

fn fault_of_fill(fault: InitFault) -> MigrateFault
    ensures { result ≡ fault_of_fill fault }
{
    match fault {
        InitFault::Exists => MigrateFault::Exists,
        InitFault::Fault => MigrateFault::Disk,
    }
}

/// The records of format 2 of a file that opens as one of format 1. The disk is only read.
fn open_old<D: Disk>(alloc: Global, disk: &mut D) -> Result<Records, OpenFault>
    ensures opened { OpenedOld result (D.contents disk.old) (D.faults disk.old)
        (D.faults disk.new) }
    ensures records { IfOk result (λ made. AreRecoded (D.contents disk.old) made) }
    ensures short { IfOk result (λ made. AreShort (payloads_of_records made)) }
    ensures same { D.contents disk.new ≡ D.contents disk.old }
    ensures crash { Changes D.moment D.may_leave D.left_since Same disk.old disk.new }
    ensures object { D.name disk.new ≡ D.name disk.old }
    ensures later { D.faults disk.old ≤ D.faults disk.new }
{
    match read_old(alloc, disk) {
        Ok(records) => judge_old(alloc, records),
        Err(fault) => Err(fault),
    }
}

/// Writes these records to a disk as a journal of format 2, and gives the disk back. What is said
/// of it holds of each file of format 1 whose recoded records they are.
fn write_new<E: Disk>(second: E, records: Records) -> (Result<(), MigrateFault>, E)
    requires short { AreShort (payloads_of_records records) }
    ensures ends { (held : Option (List ℕ)) → (count : ℕ) → AreMigrated held records
        → MigrateEnds ⟦<E as Disk>⟧ result.0 held count count second result.1 }
    ensures images { (held : Option (List ℕ)) → AreMigrated held records
        → IfSome held (λ file. Leaves E.moment E.left_since
        (WasOrMigrated file (E.may_leave second)) second result.1) }
    ensures done { (held : Option (List ℕ)) → AreMigrated held records
        → OnOk result.0 (IfSome held (λ file. (c : List ℕ) → E.may_leave result.1 c
        → opens c ≡ opens_old file)) }
    ensures bytes { (held : Option (List ℕ)) → AreMigrated held records
        → OnOk result.0 (IfSome held (λ file. IfSome (E.contents result.1) (λ found. opens found
        ≡ opens_old file))) }
    ensures durable { OnOk result.0 (Only (E.contents result.1) (E.may_leave result.1)) }
    ensures object { E.name result.1 ≡ E.name second }
    ensures later { E.faults second ≤ E.faults result.1 }
{
    recoded_says_the_same();
    match fill_recoded(second, records) {
        Ok(second) => (Ok(()), second),
        Err((fault, second)) => (Err(fault_of_fill(fault)), second),
    }
}

/// Writes the journal of format 1 on the first disk to the second one, in format 2, and gives both
/// disks back. The first is only read, once. The second is written by `Journal::fill`, once the
/// first has opened: so a call that was stopped is repeated over what it left.
///
/// `OtherFormat` comes exactly where the first file begins with the header of format 2, and of any
/// other file `Damaged` exactly where it doesn't open. Where it opens, `Exists` comes exactly where
/// the second file begins with the header of format 1, or has more than nine bytes and doesn't
/// begin with the header of format 2 and a closed gate; and then nothing is written. `Disk` comes
/// only where the count of faults of one of the disks rose. By each of these but `Exists`, and
/// `Disk` of the second, the second disk is given back itself. The formats are in
/// `docs/JOURNAL.md`.
pub fn migrate<D: Disk, E: Disk>(
    alloc: Global,
    mut disk: D,
    second: E,
) -> (Result<(), MigrateFault>, D, E)
    ensures ends { MigrateEnds ⟦<E as Disk>⟧ result.0 (D.contents disk) (D.faults disk)
        (D.faults result.1) second result.2 }

    // A crash at any moment leaves of the first disk what it might have left before.
    ensures same { D.contents result.1 ≡ D.contents disk }
    ensures crash { Changes D.moment D.may_leave D.left_since Same disk result.1 }
    ensures object { D.name result.1 ≡ D.name disk }
    ensures later { D.faults disk ≤ D.faults result.1 }

    // Of the second it leaves what it might have left before, or a file that is damaged, or opens
    // to the empty history, or to what the first file opens to.
    ensures images { IfSome (D.contents disk) (λ file. Leaves E.moment E.left_since
        (WasOrMigrated file (E.may_leave second)) second result.2) }

    // After Ok it leaves what a read gives, and that opens to the latter.
    ensures done { OnOk result.0 (IfSome (D.contents disk) (λ file. (c : List ℕ)
        → E.may_leave result.2 c → opens c ≡ opens_old file)) }
    ensures bytes { OnOk result.0 (IfSome (D.contents disk) (λ file.
        IfSome (E.contents result.2) (λ held. opens held ≡ opens_old file))) }
    ensures durable { OnOk result.0 (Only (E.contents result.2) (E.may_leave result.2)) }
    ensures object_second { E.name result.2 ≡ E.name second }
    ensures later_second { E.faults second ≤ E.faults result.2 }
{
    match open_old(alloc, &mut disk) {
        Err(fault) => (Err(fault_of_open(fault)), disk, second),
        Ok(records) => {
            let (ended, second) = write_new(second, records);
            (ended, disk, second)
        }
    }
}
