// One message after another.
ghost use Rattle.std.specs.Prelude.{◌≡◌, ◌≤◌, ◌⊎◌, ◌∷◌, [], List, ℕ, Option, None, true, false};
ghost use Rattle.std.specs.Prelude.{unwrap_or, IfOk, IfErr};
ghost use Rattle.std.specs.Io.KnownBytes.{append_known};
ghost use Rattle.reg_outside.specs.Faults.{Rose};
ghost use Rattle.reg_outside.specs.Streams.{WritesFront};
ghost use Rattle.reg_calls.specs.Reading.{reading_of};
ghost use Rattle.reg_session.specs.Answered.{point};
ghost use Rattle.reg_session.specs.Pending.{ReadsAs, AsksFormed};
ghost use Rattle.reg_calls.specs.Asked.{asked_of, closes};
ghost use Rattle.reg_calls.specs.declared.asked.Asked.{Asked};
ghost use Rattle.reg_service.specs.Kept.{KeptOn};
ghost use Rattle.reg_service.specs.Marks.{output_of};
ghost use Rattle.reg_serve.specs.Answered.{Answered, Answers, Outcome, last_response, question_by};
ghost use Rattle.reg_serve.specs.Keeping.{EndsTurnsOf, ReadLeaves, TurnLeaves};
ghost use Rattle.reg_serve.specs.KeepingUp.{KeepsUpOn, KeepsUpTo, ReadKeepsUp, TurnKeepsUp};
ghost use Rattle.reg_serve.specs.KeepingUp.{TurnsKeepUp};
ghost use Rattle.reg_serve.specs.Sent.{Finishes};
ghost use Rattle.reg_serve.specs.Sessions.{Remains, Serves, TurnServed};
ghost use Rattle.reg_http.specs.Messages.{IsUnfinished};

use crate::ended::Ended;
use crate::sending::{send_bytes, send_fault, send_reply};
use reg_calls::{
    Asked, asked_of, closes_by, keep_fault, no_caller_header, no_memory, no_method, no_route,
    read_call, refusal_of,
};
use reg_http::{Call, HeadFault, HttpReader, Route, Routes, Turn, turns_are_of_all_bytes};
use reg_keep::Keeper;
use reg_outside::{Clock, Connection, Sink};
use reg_service::{Cause, Next, Service};
use reg_session::{LineReading, turn};
use reg_terms::Reply;
use std::alloc::{AllocError, Global};

/// The bytes of the caller; none where none is named.
fn caller_of(call: &Call) -> &[u8]
    ensures { result.now ≡ unwrap_or call.now.caller [] }
{
    match &call.caller {
        Some(caller) => caller.bytes(),
        None => &[],
    }
}

/// What a message of a route asks, as the service takes it.
#[tactic(auto, using(reg_session::proofs::Formed::has_form))]
fn read(alloc: Global, route: Route, call: &Call) -> LineReading
    ensures says { ReadsAs result (reading_of route (unwrap_or call.now.caller []) call.now) }
    ensures form { AsksFormed result }
{
    match read_call(alloc, route, caller_of(call), call) {
        Ok(Ok(request)) => LineReading::Asked(request),
        Ok(Err(refusal)) => LineReading::Refused(refusal),
        Err(AllocError) => LineReading::NoMemory,
    }
}

/// Takes a moment, reads what a message of a route asks, and asks it.
fn answer_routed<K: Keeper, T: Clock>(
    alloc: Global,
    service: Service<K>,
    route: Route,
    call: &Call,
    clock: &mut T,
) -> (Reply, Next<K>)
    ensures { Answers ⟦<K as Keeper>⟧ service.keeper (T.moments clock.old)
        (T.moments clock.new) service.state (question_by (Asked.Routed route) call.now) result }
{
    let moment = clock.now();
    let reading = read(alloc, route, call);
    turn(alloc, service, moment, reading)
}

/// The reply to a message, and what follows.
#[tactic(auto, using(crate::proofs::Answering::answers_at_once))]
fn answer<K: Keeper, T: Clock>(
    alloc: Global,
    service: Service<K>,
    asked: Asked,
    call: &Call,
    clock: &mut T,
) -> (Reply, Next<K>)
    ensures { Answers ⟦<K as Keeper>⟧ service.keeper (T.moments clock.old)
        (T.moments clock.new) service.state (question_by asked call.now) result }
{
    service.stays();
    match asked {
        Asked::NoRoute => (Reply::Refused(no_route()), Next::Go(service)),
        Asked::NoMethod(_) => (Reply::Refused(no_method()), Next::Go(service)),
        Asked::NoCaller => (Reply::Refused(no_caller_header()), Next::Go(service)),
        Asked::Routed(route) => answer_routed(alloc, service, route, call, clock),
    }
}

/// Sends the reply to a message, after which the service goes on.
fn finish_call<K: Keeper, C: Connection>(
    alloc: Global,
    conn: &mut C,
    asked: &Asked,
    call: &Call,
    reply: Reply,
    service: Service<K>,
) -> Result<Service<K>, (Ended, Next<K>)>
    ensures sends { Finishes asked.now call.now reply (C.written conn.old)
        (C.written conn.new) service result }
    ensures failed { IfErr result (λ e. e.0 ≡ Ended.Failed
        → Rose (C.write_faults conn.old) (C.write_faults conn.new)) }
    ensures marks { C.marks conn.new ≡ C.marks conn.old }
    ensures left { C.left conn.new ≡ C.left conn.old }
    ensures reads { C.read_faults conn.old ≤ C.read_faults conn.new }
    ensures writes { C.write_faults conn.old ≤ C.write_faults conn.new }
{
    let close = closes_by(asked, call);
    let sent = send_reply(alloc, conn, asked, close, &reply);
    // by a call, and not at each exit below: there it would be taken apart by its kinds
    drop(reply);
    match sent {
        Err(ended) => Err((ended, Next::Go(service))),
        Ok(()) => if close {
            Err((Ended::Closed, Next::Go(service)))
        } else {
            Ok(service)
        },
    }
}

/// The response to a message at which the service stopped, whatever was asked. It takes no memory.
fn last_response(cause: Cause) -> &'static [u8]
    ensures { (asked : Asked) → result.now ≡ last_response asked cause }
{
    match cause {
        Cause::Memory => no_memory(true),
        Cause::Disk => keep_fault(true),
    }
}

/// Sends the response to a message at which the service stopped, whatever was asked, and says how
/// the connection ends.
fn stop_call<C: Connection>(conn: &mut C, cause: Cause) -> Ended
    ensures sent { result ≡ Ended.Stopped → (asked : Asked) → C.written conn.new
        ≡ append_known (C.written conn.old) (last_response asked cause) }
    ensures front { (asked : Asked) → WritesFront (C.written conn.old) (C.written conn.new)
        (last_response asked cause) }
    ensures ends { (result ≡ Ended.Stopped) ⊎ (result ≡ Ended.Failed) }
    ensures failed { result ≡ Ended.Failed
        → Rose (C.write_faults conn.old) (C.write_faults conn.new) }
    ensures marks { C.marks conn.new ≡ C.marks conn.old }
    ensures left { C.left conn.new ≡ C.left conn.old }
    ensures reads { C.read_faults conn.old ≤ C.read_faults conn.new }
    ensures writes { C.write_faults conn.old ≤ C.write_faults conn.new }
{
    match send_bytes(conn, last_response(cause)) {
        Ok(()) => Ended::Stopped,
        Err(ended) => ended,
    }
}

/// Answers a message. Where the service goes on, a mark is set before the response: no other
/// response acknowledges a command.
pub(crate) fn serve_call<K: Keeper, C: Connection, T: Clock>(
    alloc: Global,
    routes: &Routes,
    service: Service<K>,
    call: &Call,
    conn: &mut C,
    clock: &mut T,
) -> Result<Service<K>, (Ended, Next<K>)>
    ensures open { IfOk result (λ after. closes call.now ≡ false) }
    ensures served { IfOk result (λ after.
        Answered (point ⟦<C as Sink>⟧ ⟦<T as Clock>⟧ conn.old clock.old service.state) (call.now
        ∷ []) (point ⟦<C as Sink>⟧ ⟦<T as Clock>⟧ conn.new clock.new after.state)) }
    ensures kept { IfOk result
        (λ after. KeptOn ⟦<K as Keeper>⟧ service.state.history service.keeper after.state.history
        after.keeper) }
    ensures ended { IfErr result (λ e.
        TurnLeaves ⟦<K as Keeper>⟧
        (point ⟦<C as Sink>⟧ ⟦<T as Clock>⟧ conn.old clock.old service.state) service.keeper
        (Turn.Call call.now) (C.written conn.new) (T.moments clock.new) e) }
    ensures keeps_up { IfOk result (λ after. KeepsUpOn ⟦<K as Keeper>⟧ service.keeper
        (output_of ⟦<C as Sink>⟧ conn.old) (output_of ⟦<C as Sink>⟧ conn.new) after) }
    ensures keeps_up_to { IfErr result (λ e. TurnKeepsUp ⟦<K as Keeper>⟧
        (point ⟦<C as Sink>⟧ ⟦<T as Clock>⟧ conn.old clock.old service.state) service.keeper
        (Turn.Call call.now) (output_of ⟦<C as Sink>⟧ conn.old) (output_of ⟦<C as Sink>⟧ conn.new)
        (T.moments clock.new) e) }
    ensures failed { IfErr result (λ e. e.0 ≡ Ended.Failed
        → Rose (C.write_faults conn.old) (C.write_faults conn.new)) }
    ensures left { C.left conn.new ≡ C.left conn.old }
    ensures reads { C.read_faults conn.old ≤ C.read_faults conn.new }
    ensures writes { C.write_faults conn.old ≤ C.write_faults conn.new }
{
    let asked = asked_of(routes, call);
    let (reply, next) = answer(alloc, service, asked, call, clock);
    match next {
        Next::Go(service) => {
            conn.note(&service.stamp());
            finish_call(alloc, conn, &asked, call, reply, service)
        }
        Next::Stop(cause, keeper) => {
            drop(reply);
            Err((stop_call(conn, cause), Next::Stop(cause, keeper)))
        }
    }
}

/// Sends the refusal of a head that isn't taken.
fn refuse_head<K: Keeper, C: Connection>(
    alloc: Global,
    service: Service<K>,
    fault: HeadFault,
    conn: &mut C,
) -> (Ended, Next<K>)
    ensures ended { (moments : Option (List ℕ)) →
        TurnLeaves ⟦<K as Keeper>⟧ (record {
          written = C.written conn.old;
          moments = moments;
          state = service.state;
        }) service.keeper (Turn.Bad fault)
        (C.written conn.new) moments result }
    ensures keeps_up { (to : Outcome) → KeepsUpTo ⟦<K as Keeper>⟧ service.keeper
        (output_of ⟦<C as Sink>⟧ conn.old) (output_of ⟦<C as Sink>⟧ conn.new) result.1 to }
    ensures failed { result.0 ≡ Ended.Failed
        → Rose (C.write_faults conn.old) (C.write_faults conn.new) }
    ensures left { C.left conn.new ≡ C.left conn.old }
    ensures reads { C.read_faults conn.old ≤ C.read_faults conn.new }
    ensures writes { C.write_faults conn.old ≤ C.write_faults conn.new }
{
    service.stays();
    let reply = Reply::Refused(refusal_of(fault));
    let sent = send_fault(alloc, conn, &reply);
    drop(reply);
    match sent {
        Ok(()) => (Ended::Bad, Next::Go(service)),
        Err(ended) => (ended, Next::Go(service)),
    }
}

/// Does what a turn of the reader asks, and says whether it was a message.
fn take_turn<K: Keeper, C: Connection, T: Clock>(
    alloc: Global,
    routes: &Routes,
    service: Service<K>,
    turn: Turn,
    conn: &mut C,
    clock: &mut T,
) -> Result<(Service<K>, bool), (Ended, Next<K>)>
    ensures served { IfOk result (λ after.
        TurnServed (point ⟦<C as Sink>⟧ ⟦<T as Clock>⟧ conn.old clock.old service.state) turn
        (point ⟦<C as Sink>⟧ ⟦<T as Clock>⟧ conn.new clock.new after.0.state) after.1) }
    ensures kept { IfOk result
        (λ after. KeptOn ⟦<K as Keeper>⟧ service.state.history service.keeper after.0.state.history
        after.0.keeper) }
    ensures ended { IfErr result (λ e.
        TurnLeaves ⟦<K as Keeper>⟧
        (point ⟦<C as Sink>⟧ ⟦<T as Clock>⟧ conn.old clock.old service.state) service.keeper turn
        (C.written conn.new) (T.moments clock.new) e) }
    ensures keeps_up { IfOk result (λ after. KeepsUpOn ⟦<K as Keeper>⟧ service.keeper
        (output_of ⟦<C as Sink>⟧ conn.old) (output_of ⟦<C as Sink>⟧ conn.new) after.0) }
    ensures keeps_up_to { IfErr result (λ e. TurnKeepsUp ⟦<K as Keeper>⟧
        (point ⟦<C as Sink>⟧ ⟦<T as Clock>⟧ conn.old clock.old service.state) service.keeper
        turn (output_of ⟦<C as Sink>⟧ conn.old) (output_of ⟦<C as Sink>⟧ conn.new)
        (T.moments clock.new) e) }
    ensures failed { IfErr result (λ e. e.0 ≡ Ended.Failed
        → Rose (C.write_faults conn.old) (C.write_faults conn.new)) }
    ensures left { C.left conn.new ≡ C.left conn.old }
    ensures reads { C.read_faults conn.old ≤ C.read_faults conn.new }
    ensures writes { C.write_faults conn.old ≤ C.write_faults conn.new }
{
    service.stays();
    match turn {
        Turn::NeedMore => Ok((service, false)),
        Turn::Bad(fault) => Err(refuse_head(alloc, service, fault, conn)),
        Turn::Call(call) => {
            let served = serve_call(alloc, routes, service, &call, conn, clock);
            drop(call);
            match served {
                Ok(service) => Ok((service, true)),
                Err(end) => Err(end),
            }
        }
    }
}

/// Answers the next message of what was read, and says whether there was one.
fn serve_turn<K: Keeper, C: Connection, T: Clock>(
    alloc: Global,
    routes: &Routes,
    service: Service<K>,
    reader: &mut HttpReader,
    conn: &mut C,
    clock: &mut T,
) -> Result<(Service<K>, bool), (Ended, Next<K>)>
    requires { reader.old.fault ≡ None }
    ensures served { IfOk result (λ after.
        Serves (point ⟦<C as Sink>⟧ ⟦<T as Clock>⟧ conn.old clock.old service.state) reader.old
        (point ⟦<C as Sink>⟧ ⟦<T as Clock>⟧ conn.new clock.new after.0.state) reader.new) }
    ensures more { IfOk result (λ after. Remains reader.old after.1 reader.new) }
    ensures kept { IfOk result
        (λ after. KeptOn ⟦<K as Keeper>⟧ service.state.history service.keeper after.0.state.history
        after.0.keeper) }
    ensures ended { IfErr result (λ e.
        ReadLeaves ⟦<K as Keeper>⟧
        (point ⟦<C as Sink>⟧ ⟦<T as Clock>⟧ conn.old clock.old service.state) service.keeper
        reader.old (C.written conn.new) (T.moments clock.new) e) }
    ensures keeps_up { IfOk result (λ after. KeepsUpOn ⟦<K as Keeper>⟧ service.keeper
        (output_of ⟦<C as Sink>⟧ conn.old) (output_of ⟦<C as Sink>⟧ conn.new) after.0) }
    ensures keeps_up_to { IfErr result (λ e. ReadKeepsUp ⟦<K as Keeper>⟧
        (point ⟦<C as Sink>⟧ ⟦<T as Clock>⟧ conn.old clock.old service.state) service.keeper
        reader.old (output_of ⟦<C as Sink>⟧ conn.old) (output_of ⟦<C as Sink>⟧ conn.new)
        (T.moments clock.new) e) }
    ensures failed { IfErr result (λ e. e.0 ≡ Ended.Failed
        → Rose (C.write_faults conn.old) (C.write_faults conn.new)) }
    ensures left { C.left conn.new ≡ C.left conn.old }
    ensures reads { C.read_faults conn.old ≤ C.read_faults conn.new }
    ensures writes { C.write_faults conn.old ≤ C.write_faults conn.new }
{
    turns_are_of_all_bytes();
    service.stays();
    match reader.next() {
        Err(AllocError) => Err((Ended::NoMemory, Next::Go(service))),
        Ok(turn) => take_turn(alloc, routes, service, turn, conn, clock),
    }
}

/// Answers all messages of what was read.
pub(crate) fn serve_turns<K: Keeper, C: Connection, T: Clock>(
    alloc: Global,
    routes: &Routes,
    service: Service<K>,
    reader: &mut HttpReader,
    conn: &mut C,
    clock: &mut T,
) -> Result<Service<K>, (Ended, Next<K>)>
    requires { reader.old.fault ≡ None }
    ensures served { IfOk result (λ after.
        Serves (point ⟦<C as Sink>⟧ ⟦<T as Clock>⟧ conn.old clock.old service.state) reader.old
        (point ⟦<C as Sink>⟧ ⟦<T as Clock>⟧ conn.new clock.new after.state) reader.new) }
    ensures fault { IfOk result (λ after. reader.new.fault ≡ None) }
    ensures none { IfOk result (λ after. IsUnfinished reader.new.rest) }
    ensures kept { IfOk result
        (λ after. KeptOn ⟦<K as Keeper>⟧ service.state.history service.keeper after.state.history
        after.keeper) }
    ensures ended { IfErr result (λ e.
        EndsTurnsOf ⟦<K as Keeper>⟧
        (point ⟦<C as Sink>⟧ ⟦<T as Clock>⟧ conn.old clock.old service.state) service.keeper
        reader.old (C.written conn.new) (T.moments clock.new) e) }
    ensures keeps_up { IfOk result (λ after. KeepsUpOn ⟦<K as Keeper>⟧ service.keeper
        (output_of ⟦<C as Sink>⟧ conn.old) (output_of ⟦<C as Sink>⟧ conn.new) after) }
    ensures keeps_up_to { IfErr result (λ e. TurnsKeepUp ⟦<K as Keeper>⟧
        (point ⟦<C as Sink>⟧ ⟦<T as Clock>⟧ conn.old clock.old service.state) service.keeper
        reader.old (output_of ⟦<C as Sink>⟧ conn.old) (output_of ⟦<C as Sink>⟧ conn.new)
        (T.moments clock.new) e) }
    ensures failed { IfErr result (λ e. e.0 ≡ Ended.Failed
        → Rose (C.write_faults conn.old) (C.write_faults conn.new)) }
    ensures left { C.left conn.new ≡ C.left conn.old }
    ensures reads { C.read_faults conn.old ≤ C.read_faults conn.new }
    ensures writes { C.write_faults conn.old ≤ C.write_faults conn.new }
{
    service.stays();
    let mut service = service;
    let mut more = true;
    while more {
        match serve_turn(alloc, routes, service, reader, conn, clock) {
            Ok((after, another)) => {
                service = after;
                more = another;
            }
            Err(end) => return Err(end),
        }
    }
    Ok(service)
}
