// The tasks, each over a disk that it gives back.
ghost use Rattle.std.specs.Prelude.{◌≡◌, ◌≤◌, List, ℕ, Ok, Err, length, option_map, IfOk};
ghost use Rattle.std.specs.Prelude.{IfErr, IfSome, OnErr, OnOk, true};
ghost use Rattle.std.specs.Io.KnownBytes.{append_known};
ghost use Rattle.reg_outside.specs.Disk.{Changes, Same};
ghost use Rattle.reg_outside.specs.Faults.{HasCause};
ghost use Rattle.reg_outside.specs.Streams.{WritesFront, later_moments};
ghost use Rattle.reg_keep.specs.JournalWords.{disk_of};
ghost use Rattle.reg_service.specs.Opening.{opens, at_last, FrontsReopen};
ghost use Rattle.reg_session.specs.Replies.{line_of};
ghost use Rattle.reg_run.specs.Crash.{seen};
ghost use Rattle.reg_run.specs.Due.{ToldOnce, AnswersTo};
ghost use Rattle.reg_run.specs.Ends.{Did, DidBoth, DidInit, OpenCaused, end_of_stop, end_of_open};
ghost use Rattle.reg_run.specs.Once.{Printed, Put, end_of_reply, is_constant};
ghost use Rattle.reg_run.specs.Questions.{asked_by};
ghost use Rattle.reg_run.specs.Status.{check_line};
ghost use Rattle.reg_run.specs.World.{Net, World, world, holding, printing, at_clock, net_of};
ghost use Rattle.reg_run.specs.World.{out_of};

use crate::as_of::{as_of_over, report_as_of_over};
use crate::listing::commands_over;
use crate::load::load_over;
use crate::migrate::migrate_over;
use crate::provision::provision_over;
use crate::question::asked_by;
use crate::report::report_over;
use crate::sample::print_sample;
use crate::serve::serve_over;
use crate::status::End;
use reg_effect::Incremental;
use reg_json::{keep_fault_line, no_memory_line};
use reg_keep::{InitFault, Journal, Keeper, OpenFault};
use reg_machine::Machine;
use reg_outside::{Clock, Disk, Failed, Listener, Sink, Source, write_whole};
use reg_service::Service;
use reg_session::{Stop, answer_input, answer_together, reply_line, turn};
use reg_terms::Reply;
use reg_words::{BatchSize, Question, Task};
use std::alloc::{AllocError, Global};

pub(crate) fn end_of_open(fault: OpenFault) -> End
    ensures { result ≡ end_of_open fault }
{
    match fault {
        OpenFault::Damaged(at) => End::Damaged(at),
        OpenFault::Fault => End::Disk,
        OpenFault::NoMemory => End::Memory,
        OpenFault::OtherFormat => End::OtherFormat,
    }
}

pub(crate) fn end_of_stop(stop: Stop) -> End
    ensures { result ≡ end_of_stop stop }
{
    match stop {
        Stop::Memory => End::Memory,
        Stop::Disk => End::Disk,
        Stop::Input => End::Input,
        Stop::Output => End::Output,
        Stop::TooMuch => End::TooMuch,
    }
}

/// The service over the journal on a disk. A refusal gives the disk back.
pub(crate) fn open<D: Disk>(alloc: Global, disk: D) -> Result<Service<Journal<D>>, (End, D)>
    ensures opens { IfOk result (λ s. IfSome (D.contents disk) (λ file. opens file ≡ Ok s.state)) }
    ensures same { IfOk result (λ s. D.contents (disk_of s.keeper) ≡ D.contents disk) }
    ensures crash { IfOk result
        (λ s. Changes D.moment D.may_leave D.left_since Same disk (disk_of s.keeper)) }
    ensures object { IfOk result (λ s. D.name (disk_of s.keeper) ≡ D.name disk) }
    ensures later { IfOk result (λ s. D.faults disk ≤ D.faults (disk_of s.keeper)) }
    ensures still { IfOk result (λ s. D.faults (disk_of s.keeper) ≡ D.faults disk) }
    ensures cause { IfErr result
        (λ e. OpenCaused e.0 (D.contents disk) (D.faults disk) (D.faults e.1)) }
    ensures same_err { IfErr result (λ e. D.contents e.1 ≡ D.contents disk) }
    ensures crash_err { IfErr result
        (λ e. Changes D.moment D.may_leave D.left_since Same disk e.1) }
    ensures object_err { IfErr result (λ e. D.name e.1 ≡ D.name disk) }
    ensures later_err { IfErr result (λ e. D.faults disk ≤ D.faults e.1) }
{
    match Journal::reopen(alloc, disk) {
        Ok((journal, records)) => match Service::start(alloc, journal, records) {
            Ok(service) => Ok(service),
            Err((fault, journal)) => Err((end_of_open(fault), journal.into_disk())),
        },
        Err((fault, disk)) => Err((end_of_open(fault), disk)),
    }
}

/// The disk under a service. It opens to the service's history.
pub(crate) fn close<D: Disk>(service: Service<Journal<D>>) -> D
    ensures disk { result ≡ disk_of service.keeper }
    ensures opens { IfSome (D.contents result) (λ file. opens file
        ≡ Ok (at_last service.state.history)) }
    ensures images { (c : List ℕ) → D.may_leave result c
        → opens c ≡ Ok (at_last service.state.history) }
    ensures again { FrontsReopen service.state.history }
{
    service.into_keeper().into_disk()
}

/// Begins a journal.
fn init<D: Disk>(disk: D) -> (End, D)
    ensures did { (w : World)
        → DidInit (seen ⟦<D as Disk>⟧ disk result.1) result.0 (holding ⟦<D as Disk>⟧ w disk)
        (holding ⟦<D as Disk>⟧ w result.1) }
    ensures object { D.name result.1 ≡ D.name disk }
    ensures later { D.faults disk ≤ D.faults result.1 }
{
    match Journal::init(disk) {
        Ok(journal) => (End::Done, journal.into_disk()),
        Err((InitFault::Exists, disk)) => (End::Exists, disk),
        Err((InitFault::Fault, disk)) => (End::Disk, disk),
    }
}

/// Answers the lines of the input over the journal on a disk.
fn apply_over<S: Source, K: Sink, D: Disk, C: Clock>(
    alloc: Global,
    input: &mut S,
    out: &mut K,
    disk: D,
    clock: &mut C,
) -> (End, D)
    ensures did { (net : Net) → Did (seen ⟦<D as Disk>⟧ disk result.1) Task.Apply result.0
        (world ⟦<S as Source>⟧ ⟦<K as Sink>⟧ ⟦<D as Disk>⟧ ⟦<C as Clock>⟧ input.old out.old disk
        clock.old net)
        (world ⟦<S as Source>⟧ ⟦<K as Sink>⟧ ⟦<D as Disk>⟧ ⟦<C as Clock>⟧ input.new out.new result.1
        clock.new net) }
    ensures object { D.name result.1 ≡ D.name disk }
    ensures later { D.faults disk ≤ D.faults result.1 }
{
    match open(alloc, disk) {
        Err((end, disk)) => (end, disk),
        Ok(service) => match answer_input(alloc, service, input, out, clock) {
            Ok(service) => (End::Done, close(service)),
            Err((stop, keeper)) => (end_of_stop(stop), keeper.into_disk()),
        },
    }
}

/// Answers the lines of the input over the journal on a disk, of those that were read already at
/// most so many together.
fn apply_together_over<S: Source, K: Sink, D: Disk, C: Clock>(
    alloc: Global,
    most: BatchSize,
    input: &mut S,
    out: &mut K,
    disk: D,
    clock: &mut C,
) -> (End, D)
    ensures did { (net : Net)
        → Did (seen ⟦<D as Disk>⟧ disk result.1) (Task.Together most) result.0
        (world ⟦<S as Source>⟧ ⟦<K as Sink>⟧ ⟦<D as Disk>⟧ ⟦<C as Clock>⟧ input.old out.old disk
        clock.old net)
        (world ⟦<S as Source>⟧ ⟦<K as Sink>⟧ ⟦<D as Disk>⟧ ⟦<C as Clock>⟧ input.new out.new result.1
        clock.new net) }
    ensures object { D.name result.1 ≡ D.name disk }
    ensures later { D.faults disk ≤ D.faults result.1 }
{
    let count = most.number();
    match open(alloc, disk) {
        Err((end, disk)) => (end, disk),
        Ok(service) => match answer_together(alloc, count, service, input, out, clock) {
            Ok(service) => (End::Done, close(service)),
            Err((stop, keeper)) => (end_of_stop(stop), keeper.into_disk()),
        },
    }
}

/// Writes bytes, and flushes.
pub(crate) fn print<K: Sink>(out: &mut K, bytes: &[u8]) -> Result<(), Failed>
    ensures written { OnOk result (K.written out.new ≡ append_known (K.written out.old) bytes.now) }
    ensures flushed { OnOk result (K.flushed out.new ≡ option_map length (K.written out.new)) }
    ensures unflushed { OnErr result (K.flushed out.new ≡ K.flushed out.old) }
    ensures front { WritesFront (K.written out.old) (K.written out.new) bytes.now }
    ensures marks { K.marks out.new ≡ K.marks out.old }
    ensures cause { HasCause (K.write_faults out.old) (K.write_faults out.new) result }
{
    write_whole(out, bytes)?;
    out.flush()
}

fn check_line(alloc: Global, machine: &Machine<Incremental>) -> Result<Vec<u8>, AllocError>
    ensures { IfOk result (λ v. v.items ≡ check_line machine.now) }
{
    let count = machine.commands();
    let mut line = format!(in alloc; "commands {count} moment ")?.into_bytes();
    line.extend_from_slice(&machine.clock().text())?;
    line.push(b'\n')?;
    Ok(line)
}

fn print_check<K: Sink>(alloc: Global, machine: &Machine<Incremental>, out: &mut K) -> End
    ensures { Printed End.Done (check_line machine.now) result (out_of ⟦<K as Sink>⟧ out.old)
        (out_of ⟦<K as Sink>⟧ out.new) }
{
    match check_line(alloc, machine) {
        Err(AllocError) => End::Memory,
        Ok(line) => match print(out, &line) {
            Ok(()) => End::Done,
            Err(Failed) => End::Output,
        },
    }
}

/// Opens the journal on a disk, and says how many commands it has, and the last one's moment.
fn check_over<K: Sink, D: Disk>(alloc: Global, out: &mut K, disk: D) -> (End, D)
    ensures did { (w : World) → Did (seen ⟦<D as Disk>⟧ disk result.1) Task.Check result.0
        (holding ⟦<D as Disk>⟧ (printing ⟦<K as Sink>⟧ w out.old) disk)
        (holding ⟦<D as Disk>⟧ (printing ⟦<K as Sink>⟧ w out.new) result.1) }
    ensures object { D.name result.1 ≡ D.name disk }
    ensures later { D.faults disk ≤ D.faults result.1 }
{
    match open(alloc, disk) {
        Err((end, disk)) => (end, disk),
        Ok(service) => {
            service.stays();
            let end = print_check(alloc, service.machine(), out);
            (end, close(service))
        }
    }
}

fn end_of_reply(reply: &Reply) -> End
    ensures { result ≡ end_of_reply reply.now }
{
    match reply {
        Reply::Number { .. } | Reply::Loaded { .. } | Reply::Answer(_) => End::Done,
        Reply::Refused(_) => End::Refused,
        Reply::NoMemory => End::Memory,
        Reply::KeepFault => End::Disk,
    }
}

/// Prints a line, after which a run ends so.
pub(crate) fn print_line<K: Sink>(out: &mut K, line: &[u8], end: End) -> End
    ensures put { Put end line.now result (out_of ⟦<K as Sink>⟧ out.old)
        (out_of ⟦<K as Sink>⟧ out.new) }
    ensures marks { K.marks out.new ≡ K.marks out.old }
{
    match print(out, line) {
        Ok(()) => end,
        Err(Failed) => End::Output,
    }
}

/// Prints a reply that there is no memory to print, if it is a fault: its text is constant. Of
/// another nothing is printed.
fn print_constant<K: Sink>(reply: &Reply, out: &mut K) -> End
    ensures printed { Printed (end_of_reply reply.now) (line_of reply.now) result
        (out_of ⟦<K as Sink>⟧ out.old) (out_of ⟦<K as Sink>⟧ out.new) }
    ensures sure { is_constant reply.now ≡ true → Put (end_of_reply reply.now) (line_of reply.now)
        result (out_of ⟦<K as Sink>⟧ out.old) (out_of ⟦<K as Sink>⟧ out.new) }
    ensures marks { K.marks out.new ≡ K.marks out.old }
{
    match reply {
        Reply::NoMemory => print_line(out, no_memory_line(), End::Memory),
        Reply::KeepFault => print_line(out, keep_fault_line(), End::Disk),
        Reply::Number { .. } | Reply::Loaded { .. } | Reply::Answer(_) | Reply::Refused(_) => {
            End::Memory
        }
    }
}

/// Prints a reply. A fault takes no memory.
pub(crate) fn print_reply<K: Sink>(alloc: Global, reply: &Reply, out: &mut K) -> End
    ensures printed { Printed (end_of_reply reply.now) (line_of reply.now) result
        (out_of ⟦<K as Sink>⟧ out.old) (out_of ⟦<K as Sink>⟧ out.new) }
    ensures sure { is_constant reply.now ≡ true → Put (end_of_reply reply.now) (line_of reply.now)
        result (out_of ⟦<K as Sink>⟧ out.old) (out_of ⟦<K as Sink>⟧ out.new) }
    ensures marks { K.marks out.new ≡ K.marks out.old }
{
    match reply_line(alloc, reply) {
        Ok(line) => print_line(out, &line, end_of_reply(reply)),
        Err(AllocError) => print_constant(reply, out),
    }
}

/// Asks a service a question, at the clock, and gives its keeper back as it was.
fn ask<J: Keeper, K: Sink, C: Clock>(
    alloc: Global,
    service: Service<J>,
    question: &Question,
    out: &mut K,
    clock: &mut C,
) -> (End, J)
    ensures asked { ToldOnce (AnswersTo (asked_by question.now) service.state)
        (C.moments clock.old) result.0 (out_of ⟦<K as Sink>⟧ out.old)
        (out_of ⟦<K as Sink>⟧ out.new) }
    ensures same { result.1 ≡ service.keeper }
    ensures clock { C.moments clock.new ≡ option_map later_moments (C.moments clock.old) }
{
    let at = clock.now();
    let reading = asked_by(alloc, question);
    let (reply, next) = turn(alloc, service, at, reading);
    let end = print_reply(alloc, &reply, out);
    // By a call: dropped in place it would be taken apart by its kinds.
    drop(reply);
    (end, next.into_keeper())
}

/// Asks the journal on a disk a question.
fn ask_over<K: Sink, D: Disk, C: Clock>(
    alloc: Global,
    question: &Question,
    out: &mut K,
    disk: D,
    clock: &mut C,
) -> (End, D)
    ensures did { (w : World)
        → Did (seen ⟦<D as Disk>⟧ disk result.1) (Task.Ask question.now) result.0
        (holding ⟦<D as Disk>⟧ (printing ⟦<K as Sink>⟧
        (at_clock ⟦<C as Clock>⟧ w clock.old) out.old) disk)
        (holding ⟦<D as Disk>⟧ (printing ⟦<K as Sink>⟧
        (at_clock ⟦<C as Clock>⟧ w clock.new) out.new) result.1) }
    ensures object { D.name result.1 ≡ D.name disk }
    ensures later { D.faults disk ≤ D.faults result.1 }
{
    match open(alloc, disk) {
        Err((end, disk)) => (end, disk),
        Ok(service) => {
            service.stays();
            service.law_stops();
            let (end, keeper) = ask(alloc, service, question, out, clock);
            (end, keeper.into_disk())
        }
    }
}

/// Does a task. The second disk is for `migrate` alone.
pub fn perform<S: Source, K: Sink, D: Disk, E: Disk, C: Clock, L: Listener>(
    alloc: Global,
    task: &Task,
    input: &mut S,
    out: &mut K,
    disk: D,
    second: &mut E,
    clock: &mut C,
    net: &mut L,
) -> (End, D)
    ensures did { DidBoth ⟦<E as Disk>⟧ (seen ⟦<D as Disk>⟧ disk result.1) task.now result.0
        (world ⟦<S as Source>⟧ ⟦<K as Sink>⟧ ⟦<D as Disk>⟧ ⟦<C as Clock>⟧ input.old out.old disk
        clock.old (net_of ⟦<L as Listener>⟧ net.old))
        (world ⟦<S as Source>⟧ ⟦<K as Sink>⟧ ⟦<D as Disk>⟧ ⟦<C as Clock>⟧ input.new out.new result.1
        clock.new (net_of ⟦<L as Listener>⟧ net.new)) second.old second.new }
    ensures object { D.name result.1 ≡ D.name disk }
    ensures later { D.faults disk ≤ D.faults result.1 }
    ensures later_second { E.faults second.old ≤ E.faults second.new }
{
    match task {
        Task::Init => init(disk),
        Task::Apply => apply_over(alloc, input, out, disk, clock),
        Task::Together { most } => apply_together_over(alloc, *most, input, out, disk, clock),
        Task::Serve { port, connections } => {
            serve_over(alloc, *port, *connections, disk, clock, net)
        }
        Task::Check => check_over(alloc, out, disk),
        Task::Ask(question) => ask_over(alloc, question, out, disk, clock),
        Task::Report(asked) => report_over(alloc, asked, out, disk, clock),
        Task::ReportAsOf { report, at } => {
            report_as_of_over(alloc, report, at, out, disk, clock)
        }
        Task::Load { job } => load_over(alloc, job, input, out, disk, clock),
        Task::Commands(places) => commands_over(alloc, places, out, disk),
        Task::AsOf { at } => as_of_over(alloc, at, input, out, disk, clock),
        Task::Provision(asked) => provision_over(alloc, asked, out, disk, clock),
        Task::Sample { seed, size } => (print_sample(alloc, *seed, *size, out), disk),
        Task::Migrate => migrate_over(alloc, disk, second),
    }
}
