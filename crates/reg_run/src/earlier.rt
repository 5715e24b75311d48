// The registry as it was at a moment, found by the journal on a disk.
ghost use Rattle.std.specs.Prelude.{◌≡◌, ◌≤◌, List, ℕ, Option, Ok, IfSome};
ghost use Rattle.reg_outside.specs.Disk.{Changes, Same};
ghost use Rattle.reg_machine.specs.History.{State, start};
ghost use Rattle.reg_service.specs.Opening.{judged};
ghost use Rattle.reg_report.specs.Asked.{moment_asked};
ghost use Rattle.reg_run.specs.Crash.{OpensTo, seen};

use crate::perform::{close, end_of_open, open, print_reply};
use crate::report::print_refusal;
use crate::status::End;
use reg_asof::Earlier;
use reg_base::{Moment, Text};
use reg_keep::{Journal, Records};
use reg_outside::{Clock, Disk, Sink};
use reg_report::{Unreported, moment_asked};
use reg_terms::Reply;
use std::alloc::Global;

/// Why there is no registry to ask.
#[derive(Drop)]
pub enum Unasked {
    /// The run ends so.
    Ended(End),
    /// There is no moment to ask at.
    Unreported(Unreported),
}

ghost use Rattle.reg_run.specs.Earlier.{FindsAt, FindsEarlier, FindsThen, PrintsWhy};
ghost use Rattle.reg_run.specs.World.{out_of};

/// The registry of these records as it was at a moment.
fn replayed(alloc: Global, records: Records, at: Moment) -> Result<Earlier, Unasked>
    ensures { (held : Option (List ℕ)) (last : State) (faults later : ℕ)
        → IfSome held (λ file. judged start records ≡ Ok last)
        → FindsThen last at held faults later result }
{
    match Earlier::replay(alloc, records, at) {
        Ok(earlier) => Ok(earlier),
        Err(fault) => Err(Unasked::Ended(end_of_open(fault))),
    }
}

/// Reads a journal once more, and finds its registry as it was at a moment.
fn reread<D: Disk>(alloc: Global, at: Moment, disk: D) -> (Result<Earlier, Unasked>, D)
    ensures finds { (last : State) → OpensTo (D.contents disk) (Ok last)
        → FindsThen last at (D.contents disk) (D.faults disk) (D.faults result.1) result.0 }
    ensures same { D.contents result.1 ≡ D.contents disk }
    ensures crash { Changes D.moment D.may_leave D.left_since Same disk result.1 }
    ensures object { D.name result.1 ≡ D.name disk }
    ensures later { D.faults disk ≤ D.faults result.1 }
{
    match Journal::reopen(alloc, disk) {
        Ok((journal, records)) => {
            let found = replayed(alloc, records, at);
            (found, journal.into_disk())
        }
        Err((fault, disk)) => (Err(Unasked::Ended(end_of_open(fault))), disk),
    }
}

/// Finds the registry as it was at the moment that a text names, unless it names none, or one that
/// is later than the clock.
fn find_at<D: Disk>(
    alloc: Global,
    text: &Text,
    clock: Moment,
    disk: D,
) -> (Result<Earlier, Unasked>, D)
    ensures finds { (last : State) → OpensTo (D.contents disk) (Ok last)
        → FindsAt (moment_asked text.now clock) last (D.contents disk) (D.faults disk)
        (D.faults result.1) result.0 }
    ensures same { D.contents result.1 ≡ D.contents disk }
    ensures crash { Changes D.moment D.may_leave D.left_since Same disk result.1 }
    ensures object { D.name result.1 ≡ D.name disk }
    ensures later { D.faults disk ≤ D.faults result.1 }
{
    match moment_asked(alloc, text, clock) {
        Ok(at) => reread(alloc, at, disk),
        Err(why) => (Err(Unasked::Unreported(why)), disk),
    }
}

/// Opens the journal on a disk as `check` does, and finds its registry as it was at the moment that
/// a text names. The machine that opening made is let go before the file is read again.
pub(crate) fn find_earlier<D: Disk, C: Clock>(
    alloc: Global,
    at: &Text,
    disk: D,
    clock: &mut C,
) -> (Result<Earlier, Unasked>, D)
    ensures finds { FindsEarlier (seen ⟦<D as Disk>⟧ disk result.1) at.now (D.contents disk)
        (D.faults disk) (D.faults result.1) (C.moments clock.old) (C.moments clock.new) result.0 }
    ensures object { D.name result.1 ≡ D.name disk }
    ensures later { D.faults disk ≤ D.faults result.1 }
{
    match open(alloc, disk) {
        Err((end, disk)) => (Err(Unasked::Ended(end)), disk),
        Ok(service) => {
            service.stays();
            let now = clock.now();
            let latest = service.machine().clock().later_of(now);
            find_at(alloc, at, latest, close(service))
        }
    }
}

/// Prints why there is no registry to ask, if that is for its moment.
pub(crate) fn print_why<K: Sink>(alloc: Global, why: Unasked, out: &mut K) -> End
    ensures { PrintsWhy why result (out_of ⟦<K as Sink>⟧ out.old) (out_of ⟦<K as Sink>⟧ out.new) }
{
    match why {
        Unasked::Ended(end) => end,
        Unasked::Unreported(Unreported::Refused(refusal)) => print_refusal(alloc, refusal, out),
        Unasked::Unreported(Unreported::Memory) => print_reply(alloc, &Reply::NoMemory, out),
    }
}
