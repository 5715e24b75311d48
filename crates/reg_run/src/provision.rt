// A batch of operations, printed and acknowledged.
ghost use Rattle.std.specs.Prelude.{◌≡◌, ◌≤◌, Ok, true, length, option_map, IfOk, OnErr, OnOk};
ghost use Rattle.std.specs.Io.KnownBytes.{append_known};
ghost use Rattle.reg_base.specs.Names.{is_extension};
ghost use Rattle.reg_outside.specs.Faults.{Rose};
ghost use Rattle.reg_outside.specs.Streams.{WritesFront, later_moments};
ghost use Rattle.reg_service.specs.Kept.{Halted};
ghost use Rattle.reg_session.specs.Pending.{AsksFormed, ReadsAs};
ghost use Rattle.reg_session.specs.Replies.{line_of};
ghost use Rattle.reg_report.specs.Delivered.{IsReady};
ghost use Rattle.reg_run.specs.Crash.{seen};
ghost use Rattle.reg_run.specs.Ends.{Did};
ghost use Rattle.reg_run.specs.Once.{Printed, end_of_reply};
ghost use Rattle.reg_run.specs.Providing.{Acknowledges, FollowsLines, HandsOver, Provides};
ghost use Rattle.reg_run.specs.Providing.{ProvidesOnce, ack_line, ack_request};
ghost use Rattle.reg_run.specs.World.{World, at_clock, holding, out_of, printing};

use crate::perform::{open, print, print_line, print_reply};
use crate::status::End;
use reg_base::{Bytes, Moment, Text};
use reg_keep::Keeper;
use reg_outside::{Clock, Disk, Failed, Sink};
use reg_report::{Delivery, Unreported, deliver, law_acknowledged};
use reg_service::{Next, Service};
use reg_session::{LineReading, turn};
use reg_terms::{Command, Op, Reply, Request};
use reg_words::{Provision, Task};
use std::alloc::{AllocError, Global};

/// A request of GrouperSystem that moves a consumer's place to a number.
fn ack_request(alloc: Global, consumer: &Text, seq: u64) -> Result<Request, AllocError>
    ensures { IfOk result (λ request. request ≡ ack_request consumer.now seq) }
{
    let by = Bytes::of(alloc, b"g:isa/GrouperSystem")?;
    let consumer = consumer.copy(alloc)?;
    Ok(Request {
        by,
        key: None,
        op: Op::Command(Command::ConsumerAck { consumer, seq }),
    })
}

/// The same as what was read.
fn ack_of(alloc: Global, consumer: &Text, seq: u64) -> LineReading
    requires { is_extension consumer.now ≡ true }
    ensures reads { ReadsAs result (Ok (ack_request consumer.now seq)) }
    ensures form { AsksFormed result }
{
    match ack_request(alloc, consumer, seq) {
        Ok(request) => LineReading::Asked(request),
        Err(AllocError) => LineReading::NoMemory,
    }
}

/// Prints the last line in place of a command's number, and any other reply as it is.
fn print_ack<K: Sink>(alloc: Global, reply: &Reply, last: &[u8], out: &mut K) -> End
    ensures { Printed (end_of_reply reply.now) (ack_line last.now reply.now) result
        (out_of ⟦<K as Sink>⟧ out.old) (out_of ⟦<K as Sink>⟧ out.new) }
{
    match reply {
        Reply::Number { .. } => print_line(out, last, End::Done),
        Reply::Loaded { .. }
        | Reply::Answer(_)
        | Reply::Refused(_)
        | Reply::NoMemory
        | Reply::KeepFault => print_reply(alloc, reply, out),
    }
}

/// Acknowledges the end of a batch, prints the last line, and gives the keeper back.
fn acknowledge<J: Keeper, K: Sink>(
    alloc: Global,
    service: Service<J>,
    at: Moment,
    consumer: &Text,
    delivery: &Delivery,
    out: &mut K,
) -> (End, J)
    requires ready { IsReady consumer.now service.state delivery.now }
    requires now { at ≤ service.state.clock }
    ensures asked { (h : Halted ⟦<J as Keeper>⟧ service.state.history service.keeper result.1)
        × Acknowledges service.state at consumer.now delivery.now.end result.0 h.answered h.after
        (out_of ⟦<K as Sink>⟧ out.old) (out_of ⟦<K as Sink>⟧ out.new) }
    ensures disk { result.0 ≡ End.Disk
        → Rose (J.keep_faults service.keeper) (J.keep_faults result.1) }
{
    let reading = ack_of(alloc, consumer, delivery.end);
    let (reply, next) = turn(alloc, service, at, reading);
    let end = print_ack(alloc, &reply, &delivery.last, out);
    // By a call: dropped in place it would be taken apart by its kinds.
    drop(reply);
    match next {
        Next::Go(service) => {
            law_acknowledged(service.machine());
            (end, service.into_keeper())
        }
        Next::Stop(_, keeper) => (end, keeper),
    }
}

/// Behind the lines of a batch's operations: acknowledges its end, if that is behind the consumer's
/// place, prints the last line, and gives the keeper back.
fn follow_lines<J: Keeper, K: Sink>(
    alloc: Global,
    service: Service<J>,
    at: Moment,
    consumer: &Text,
    delivery: &Delivery,
    out: &mut K,
) -> (End, J)
    requires ready { IsReady consumer.now service.state delivery.now }
    requires now { at ≤ service.state.clock }
    ensures followed { (h : Halted ⟦<J as Keeper>⟧ service.state.history service.keeper result.1)
        × FollowsLines service.state at consumer.now delivery.now.place delivery.now.end result.0
        h.answered h.after (out_of ⟦<K as Sink>⟧ out.old) (out_of ⟦<K as Sink>⟧ out.new) }
    ensures disk { result.0 ≡ End.Disk
        → Rose (J.keep_faults service.keeper) (J.keep_faults result.1) }
{
    if delivery.place < delivery.end {
        return acknowledge(alloc, service, at, consumer, delivery, out);
    }
    service.stays();
    let end = print_line(out, &delivery.last, End::Done);
    (end, service.into_keeper())
}

/// Prints the lines of a batch's operations. They are flushed before anything is acknowledged.
fn print_lines<K: Sink>(out: &mut K, lines: &[u8]) -> Result<(), Failed>
    ensures written { OnOk result (K.written out.new ≡ append_known (K.written out.old) lines.now) }
    ensures flushed { OnOk result (K.flushed out.new ≡ option_map length (K.written out.new)) }
    ensures unflushed { OnErr result (K.flushed out.new ≡ K.flushed out.old) }
    ensures front { WritesFront (K.written out.old) (K.written out.new) lines.now }
    ensures failed { OnErr result (Rose (K.write_faults out.old) (K.write_faults out.new)) }
{
    print(out, lines)
}

/// Prints the lines of a batch's operations, acknowledges its end if that is behind the consumer's
/// place, prints the last line, and gives the keeper back.
fn hand_over<J: Keeper, K: Sink>(
    alloc: Global,
    service: Service<J>,
    at: Moment,
    consumer: &Text,
    delivery: &Delivery,
    out: &mut K,
) -> (End, J)
    requires ready { IsReady consumer.now service.state delivery.now }
    requires now { at ≤ service.state.clock }
    ensures handed { (h : Halted ⟦<J as Keeper>⟧ service.state.history service.keeper result.1)
        × HandsOver service.state at consumer.now delivery.now.place delivery.now.end
        delivery.now.lines.items result.0 h.answered h.after (out_of ⟦<K as Sink>⟧ out.old)
        (out_of ⟦<K as Sink>⟧ out.new) }
    ensures disk { result.0 ≡ End.Disk
        → Rose (J.keep_faults service.keeper) (J.keep_faults result.1) }
{
    service.stays();
    match print_lines(out, &delivery.lines) {
        Err(Failed) => (End::Output, service.into_keeper()),
        Ok(()) => follow_lines(alloc, service, at, consumer, delivery, out),
    }
}

/// Prints a reply, and drops it.
fn print_withheld<K: Sink>(alloc: Global, reply: Reply, out: &mut K) -> End
    ensures { Printed (end_of_reply reply) (line_of reply) result (out_of ⟦<K as Sink>⟧ out.old)
        (out_of ⟦<K as Sink>⟧ out.new) }
{
    let end = print_reply(alloc, &reply, out);
    // By a call: dropped in place it would be taken apart by its kinds.
    drop(reply);
    end
}

/// Prints the batch that is asked for of a service at its clock, acknowledges its end, and gives
/// the keeper back.
fn provide_now<J: Keeper, K: Sink>(
    alloc: Global,
    service: Service<J>,
    at: Moment,
    asked: &Provision,
    out: &mut K,
) -> (End, J)
    requires now { at ≤ service.state.clock }
    ensures provided { (h : Halted ⟦<J as Keeper>⟧ service.state.history service.keeper result.1)
        × Provides asked.now service.state at result.0 h.answered h.after
        (out_of ⟦<K as Sink>⟧ out.old) (out_of ⟦<K as Sink>⟧ out.new) }
    ensures disk { result.0 ≡ End.Disk
        → Rose (J.keep_faults service.keeper) (J.keep_faults result.1) }
{
    service.stays();
    match deliver(alloc, service.machine(), asked) {
        Ok(delivery) => hand_over(alloc, service, at, &asked.consumer, &delivery, out),
        Err(Unreported::Refused(refusal)) => {
            let end = print_withheld(alloc, Reply::Refused(refusal), out);
            (end, service.into_keeper())
        }
        Err(Unreported::Memory) => {
            let end = print_withheld(alloc, Reply::NoMemory, out);
            (end, service.into_keeper())
        }
    }
}

/// The same at the moment that the clock gives.
fn provide<J: Keeper, K: Sink, C: Clock>(
    alloc: Global,
    service: Service<J>,
    asked: &Provision,
    out: &mut K,
    clock: &mut C,
) -> (End, J)
    ensures once { ProvidesOnce ⟦<J as Keeper>⟧ service.state service.keeper asked.now
        (C.moments clock.old) (out_of ⟦<K as Sink>⟧ out.old) (out_of ⟦<K as Sink>⟧ out.new) result.0
        result.1 }
    ensures clock { C.moments clock.new ≡ option_map later_moments (C.moments clock.old) }
{
    let at = clock.now();
    match service.at(alloc, at) {
        Next::Go(service) => provide_now(alloc, service, at, asked, out),
        Next::Stop(_, keeper) => (print_withheld(alloc, Reply::NoMemory, out), keeper),
    }
}

/// Opens the journal on a disk, prints the batch that is asked for and acknowledges its end.
pub(crate) fn provision_over<K: Sink, D: Disk, C: Clock>(
    alloc: Global,
    asked: &Provision,
    out: &mut K,
    disk: D,
    clock: &mut C,
) -> (End, D)
    ensures did { (w : World)
        → Did (seen ⟦<D as Disk>⟧ disk result.1) (Task.Provision asked.now) result.0
        (holding ⟦<D as Disk>⟧ (printing ⟦<K as Sink>⟧
        (at_clock ⟦<C as Clock>⟧ w clock.old) out.old) disk)
        (holding ⟦<D as Disk>⟧ (printing ⟦<K as Sink>⟧
        (at_clock ⟦<C as Clock>⟧ w clock.new) out.new) result.1) }
    ensures object { D.name result.1 ≡ D.name disk }
    ensures later { D.faults disk ≤ D.faults result.1 }
{
    match open(alloc, disk) {
        Err((end, disk)) => (end, disk),
        Ok(service) => {
            let (end, keeper) = provide(alloc, service, asked, out, clock);
            (end, keeper.into_disk())
        }
    }
}
