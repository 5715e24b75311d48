// A report, printed.
ghost use Rattle.std.specs.Prelude.{◌≡◌, ◌≤◌, option_map};
ghost use Rattle.reg_outside.specs.Streams.{later_moments};
ghost use Rattle.reg_run.specs.Crash.{seen};
ghost use Rattle.reg_run.specs.Due.{ReportsAt, TellsReport, Told, ToldOnce, due_of};
ghost use Rattle.reg_run.specs.Ends.{Did};
ghost use Rattle.reg_run.specs.World.{World, at_clock, holding, out_of, printing};

use crate::perform::{open, print_line, print_reply};
use crate::status::End;
use reg_effect::Incremental;
use reg_keep::Keeper;
use reg_machine::Machine;
use reg_outside::{Clock, Disk, Sink};
use reg_report::report;
use reg_service::{Next, Service};
use reg_terms::{Refusal, Reply};
use reg_words::{Report, Task};
use std::alloc::{AllocError, Global};

/// Prints a refusal.
pub(crate) fn print_refusal<K: Sink>(alloc: Global, refusal: Refusal, out: &mut K) -> End
    ensures { Told (λ due. due ≡ due_of (Reply.Refused refusal)) result
        (out_of ⟦<K as Sink>⟧ out.old) (out_of ⟦<K as Sink>⟧ out.new) }
{
    let reply = Reply::Refused(refusal);
    let end = print_reply(alloc, &reply, out);
    // By a call: dropped in place it would be taken apart by its kinds.
    drop(reply);
    end
}

/// Prints what a report tells of a machine at its clock.
pub(crate) fn print_report<K: Sink>(
    alloc: Global,
    machine: &Machine<Incremental>,
    asked: &Report,
    out: &mut K,
) -> End
    ensures { Told (TellsReport asked.now machine.now) result (out_of ⟦<K as Sink>⟧ out.old)
        (out_of ⟦<K as Sink>⟧ out.new) }
{
    match report(alloc, machine, asked) {
        Ok(Ok(bytes)) => print_line(out, &bytes, End::Done),
        Ok(Err(refusal)) => print_refusal(alloc, refusal, out),
        Err(AllocError) => print_reply(alloc, &Reply::NoMemory, out),
    }
}

/// Prints a report of a service, at the clock, and gives its keeper back as it was.
fn report_at<J: Keeper, K: Sink, C: Clock>(
    alloc: Global,
    service: Service<J>,
    asked: &Report,
    out: &mut K,
    clock: &mut C,
) -> (End, J)
    ensures asked { ToldOnce (ReportsAt asked.now service.state) (C.moments clock.old) result.0
        (out_of ⟦<K as Sink>⟧ out.old) (out_of ⟦<K as Sink>⟧ out.new) }
    ensures same { result.1 ≡ service.keeper }
    ensures clock { C.moments clock.new ≡ option_map later_moments (C.moments clock.old) }
{
    let at = clock.now();
    match service.at(alloc, at) {
        Next::Go(service) => {
            let end = print_report(alloc, service.machine(), asked, out);
            (end, service.into_keeper())
        }
        Next::Stop(_, keeper) => (print_reply(alloc, &Reply::NoMemory, out), keeper),
    }
}

/// Prints a report over the journal on a disk.
pub(crate) fn report_over<K: Sink, D: Disk, C: Clock>(
    alloc: Global,
    asked: &Report,
    out: &mut K,
    disk: D,
    clock: &mut C,
) -> (End, D)
    ensures did { (w : World)
        → Did (seen ⟦<D as Disk>⟧ disk result.1) (Task.Report asked.now) result.0
        (holding ⟦<D as Disk>⟧ (printing ⟦<K as Sink>⟧
        (at_clock ⟦<C as Clock>⟧ w clock.old) out.old) disk)
        (holding ⟦<D as Disk>⟧ (printing ⟦<K as Sink>⟧
        (at_clock ⟦<C as Clock>⟧ w clock.new) out.new) result.1) }
    ensures object { D.name result.1 ≡ D.name disk }
    ensures later { D.faults disk ≤ D.faults result.1 }
{
    match open(alloc, disk) {
        Err((end, disk)) => (end, disk),
        Ok(service) => {
            service.stays();
            service.law_stops();
            let (end, keeper) = report_at(alloc, service, asked, out, clock);
            (end, keeper.into_disk())
        }
    }
}
