// A journal of format 1, written anew on a second disk as one of format 2.
ghost use Rattle.std.specs.Prelude.{◌≡◌, ◌≤◌};
ghost use Rattle.reg_run.specs.Crash.{seen};
ghost use Rattle.reg_run.specs.Migrating.{DidMigrate, end_of_migrate};
ghost use Rattle.reg_run.specs.World.{World, holding};

use crate::status::End;
use reg_outside::Disk;
use reg_service::{MigrateFault, migrate};
use std::alloc::Global;

fn end_of_migrate(done: Result<(), MigrateFault>) -> End
    ensures { result ≡ end_of_migrate done }
{
    match done {
        Ok(()) => End::Done,
        Err(MigrateFault::OtherFormat) => End::OtherFormat,
        Err(MigrateFault::Damaged(at)) => End::Damaged(at),
        Err(MigrateFault::Exists) => End::Exists,
        Err(MigrateFault::Disk) => End::Disk,
        Err(MigrateFault::Memory) => End::Memory,
    }
}

/// Writes the journal on a disk anew on a second one.
pub(crate) fn migrate_over<D: Disk, E: Disk>(alloc: Global, disk: D, second: &mut E) -> (End, D)
    ensures did { (w : World)
        → DidMigrate ⟦<E as Disk>⟧ (seen ⟦<D as Disk>⟧ disk result.1) result.0
        (holding ⟦<D as Disk>⟧ w disk) (holding ⟦<D as Disk>⟧ w result.1) second.old second.new }
    ensures object { D.name result.1 ≡ D.name disk }
    ensures later { D.faults disk ≤ D.faults result.1 }
    ensures later_second { E.faults second.old ≤ E.faults second.new }
{
    let (done, disk, _second) = migrate(alloc, disk, &mut *second);
    (end_of_migrate(done), disk)
}
