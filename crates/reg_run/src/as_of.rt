// The registry as it was at a moment, asked: the lines of the input, or one report.
ghost use Rattle.std.specs.Prelude.{◌≡◌, ◌≤◌};
ghost use Rattle.reg_run.specs.AsOf.{AnswersLines, input_of};
ghost use Rattle.reg_run.specs.Crash.{seen};
ghost use Rattle.reg_run.specs.Ends.{Did};
ghost use Rattle.reg_run.specs.World.{Net, World, at_clock, holding, out_of, printing, world};

use crate::earlier::{find_earlier, print_why};
use crate::perform::end_of_stop;
use crate::report::print_report;
use crate::status::End;
use reg_asof::{Earlier, answer_input};
use reg_base::Text;
use reg_outside::{Clock, Disk, Sink, Source};
use reg_words::{Report, Task};
use std::alloc::Global;

/// Answers the lines of the input by the registry as it was.
fn answer_lines<S: Source, K: Sink>(
    alloc: Global,
    earlier: &Earlier,
    input: &mut S,
    out: &mut K,
) -> End
    ensures { AnswersLines earlier.now result (input_of ⟦<S as Source>⟧ input.old)
        (input_of ⟦<S as Source>⟧ input.new) (out_of ⟦<K as Sink>⟧ out.old)
        (out_of ⟦<K as Sink>⟧ out.new) }
{
    match answer_input(alloc, earlier, input, out) {
        Ok(()) => End::Done,
        Err(stop) => end_of_stop(stop),
    }
}

/// Answers the lines of the input as of the moment that a text names, over the journal on a disk.
pub(crate) fn as_of_over<S: Source, K: Sink, D: Disk, C: Clock>(
    alloc: Global,
    at: &Text,
    input: &mut S,
    out: &mut K,
    disk: D,
    clock: &mut C,
) -> (End, D)
    ensures did { (net : Net) → Did (seen ⟦<D as Disk>⟧ disk result.1) (Task.AsOf at.now) result.0
        (world ⟦<S as Source>⟧ ⟦<K as Sink>⟧ ⟦<D as Disk>⟧ ⟦<C as Clock>⟧ input.old out.old disk
        clock.old net)
        (world ⟦<S as Source>⟧ ⟦<K as Sink>⟧ ⟦<D as Disk>⟧ ⟦<C as Clock>⟧ input.new out.new result.1
        clock.new net) }
    ensures object { D.name result.1 ≡ D.name disk }
    ensures later { D.faults disk ≤ D.faults result.1 }
{
    let (found, disk) = find_earlier(alloc, at, disk, clock);
    match found {
        Ok(earlier) => (answer_lines(alloc, &earlier, input, out), disk),
        Err(why) => (print_why(alloc, why, out), disk),
    }
}

/// Prints a report as of the moment that a text names, over the journal on a disk.
pub(crate) fn report_as_of_over<K: Sink, D: Disk, C: Clock>(
    alloc: Global,
    asked: &Report,
    at: &Text,
    out: &mut K,
    disk: D,
    clock: &mut C,
) -> (End, D)
    ensures did { (w : World) → Did (seen ⟦<D as Disk>⟧ disk result.1)
        (Task.ReportAsOf asked.now at.now) result.0
        (holding ⟦<D as Disk>⟧ (printing ⟦<K as Sink>⟧
        (at_clock ⟦<C as Clock>⟧ w clock.old) out.old) disk)
        (holding ⟦<D as Disk>⟧ (printing ⟦<K as Sink>⟧
        (at_clock ⟦<C as Clock>⟧ w clock.new) out.new) result.1) }
    ensures object { D.name result.1 ≡ D.name disk }
    ensures later { D.faults disk ≤ D.faults result.1 }
{
    let (found, disk) = find_earlier(alloc, at, disk, clock);
    match found {
        Ok(earlier) => (print_report(alloc, earlier.machine(), asked, out), disk),
        Err(why) => (print_why(alloc, why, out), disk),
    }
}
