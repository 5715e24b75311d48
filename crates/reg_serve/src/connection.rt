// A connection from its first byte to its last.
ghost use Rattle.std.specs.Prelude.{◌≡◌, ◌≤◌, ◌<◌, ◌^◌, ◌+◌, ◌⊎◌, ℕ, List, [], take, Option, None};
ghost use Rattle.std.specs.Prelude.{length, IfOk, IfErr, OnErr};
ghost use Rattle.std.specs.Io.KnownBytes.{IsAtEnd, prepend_known};
ghost use Rattle.reg_outside.specs.Faults.{Rose};
ghost use Rattle.reg_http.specs.Messages.{IsUnfinished};
ghost use Rattle.reg_http.specs.Turns.{start, fed};
ghost use Rattle.reg_session.specs.Answered.{Point, point};
ghost use Rattle.reg_service.specs.Kept.{KeptOn};
ghost use Rattle.reg_service.specs.Marks.{Output, output_of};
ghost use Rattle.reg_serve.specs.Keeping.{EndsTurnsOf, SessionOf, SessionRests};
ghost use Rattle.reg_serve.specs.KeepingUp.{KeepsUpOn, RestsKeepUp, SessionKeepsUp, TurnsKeepUp};
ghost use Rattle.reg_serve.specs.Sessions.{HasServed, Serves};

use crate::ended::Ended;
use crate::serving::serve_turns;
use reg_http::{HttpReader, Routes, turns_are_of_all_bytes};
use reg_keep::Keeper;
use reg_outside::{Clock, Connection, Failed, Sink};
use reg_service::{Next, Service};
use std::alloc::{AllocError, Global};

/// How many bytes are taken from a connection at most.
const LIMIT: u64 = 1 << 32;

/// How many bytes are read at a time.
const PIECE: usize = 4096;

/// Reads a piece, once so many bytes are taken: as many more as a connection may have, at most.
fn read_some<C: Connection>(conn: &mut C, buf: &mut [u8], taken: u64) -> Result<usize, Failed>
    requires fits { PIECE ≤ length buf.old }
    requires some { taken < LIMIT }
    ensures within { IfOk result (λ n. taken + n ≤ LIMIT) }
    ensures filled { IfOk result (λ n. n ≤ length buf.new) }
    ensures bytes { IfOk result (λ n. C.left conn.old
        ≡ prepend_known (take n buf.new) (C.left conn.new)) }
    ensures end { IfOk result (λ n. n ≡ 0 → IsAtEnd (C.left conn.new)) }
    ensures same { OnErr result (C.left conn.new ≡ C.left conn.old) }
    ensures failed { OnErr result (Rose (C.read_faults conn.old) (C.read_faults conn.new)) }
    ensures written { C.written conn.new ≡ C.written conn.old }
    ensures marks { C.marks conn.new ≡ C.marks conn.old }
    ensures reads { C.read_faults conn.old ≤ C.read_faults conn.new }
    ensures writes { C.write_faults conn.old ≤ C.write_faults conn.new }
{
    let room = (LIMIT - taken).min(PIECE as u64) as usize;
    conn.receive(&mut buf[..room])
}

/// Takes a piece, and answers all messages of what was read.
fn serve_piece<K: Keeper, C: Connection, T: Clock>(
    alloc: Global,
    routes: &Routes,
    service: Service<K>,
    reader: &mut HttpReader,
    piece: &[u8],
    conn: &mut C,
    clock: &mut T,
) -> Result<Service<K>, (Ended, Next<K>)>
    requires { reader.old.fault ≡ None }
    ensures served { IfOk result (λ after.
        Serves (point ⟦<C as Sink>⟧ ⟦<T as Clock>⟧ conn.old clock.old service.state)
        (fed reader.old piece.now)
        (point ⟦<C as Sink>⟧ ⟦<T as Clock>⟧ conn.new clock.new after.state) reader.new) }
    ensures fault { IfOk result (λ after. reader.new.fault ≡ None) }
    ensures none { IfOk result (λ after. IsUnfinished reader.new.rest) }
    ensures kept { IfOk result
        (λ after. KeptOn ⟦<K as Keeper>⟧ service.state.history service.keeper after.state.history
        after.keeper) }
    ensures ended { IfErr result (λ e.
        EndsTurnsOf ⟦<K as Keeper>⟧
        (point ⟦<C as Sink>⟧ ⟦<T as Clock>⟧ conn.old clock.old service.state) service.keeper
        (fed reader.old piece.now) (C.written conn.new) (T.moments clock.new) e) }
    ensures keeps_up { IfOk result (λ after. KeepsUpOn ⟦<K as Keeper>⟧ service.keeper
        (output_of ⟦<C as Sink>⟧ conn.old) (output_of ⟦<C as Sink>⟧ conn.new) after) }
    ensures keeps_up_to { IfErr result (λ e. TurnsKeepUp ⟦<K as Keeper>⟧
        (point ⟦<C as Sink>⟧ ⟦<T as Clock>⟧ conn.old clock.old service.state) service.keeper
        (fed reader.old piece.now) (output_of ⟦<C as Sink>⟧ conn.old)
        (output_of ⟦<C as Sink>⟧ conn.new) (T.moments clock.new) e) }
    ensures failed { IfErr result (λ e. e.0 ≡ Ended.Failed
        → Rose (C.write_faults conn.old) (C.write_faults conn.new)) }
    ensures left { C.left conn.new ≡ C.left conn.old }
    ensures reads { C.read_faults conn.old ≤ C.read_faults conn.new }
    ensures writes { C.write_faults conn.old ≤ C.write_faults conn.new }
{
    service.stays();
    match reader.feed(piece) {
        Err(AllocError) => Err((Ended::NoMemory, Next::Go(service))),
        Ok(()) => serve_turns(alloc, routes, service, reader, conn, clock),
    }
}

/// Reads a piece, once so many bytes are taken, and answers all messages of what was read. It says
/// how many bytes came.
fn serve_some<K: Keeper, C: Connection, T: Clock>(
    alloc: Global,
    routes: &Routes,
    service: Service<K>,
    reader: &mut HttpReader,
    conn: &mut C,
    clock: &mut T,
    buf: &mut [u8],
    taken: u64,
) -> Result<(Service<K>, usize), (Ended, Next<K>)>
    requires fits { PIECE ≤ length buf.old }
    requires some { taken < LIMIT }
    requires fault { reader.old.fault ≡ None }
    requires none { IsUnfinished reader.old.rest }
    ensures more { IfOk result (λ after. 0 < after.1) }
    ensures within { IfOk result (λ after. taken + after.1 ≤ LIMIT) }
    ensures served { IfOk result (λ after. (left : Option (List ℕ)) (first : Point)
        → HasServed left (C.left conn.old) first
        (point ⟦<C as Sink>⟧ ⟦<T as Clock>⟧ conn.old clock.old service.state) reader.old taken
        → HasServed left (C.left conn.new) first
        (point ⟦<C as Sink>⟧ ⟦<T as Clock>⟧ conn.new clock.new after.0.state) reader.new (taken
        + after.1)) }
    ensures fault { IfOk result (λ after. reader.new.fault ≡ None) }
    ensures none { IfOk result (λ after. IsUnfinished reader.new.rest) }
    ensures kept { IfOk result
        (λ after. KeptOn ⟦<K as Keeper>⟧ service.state.history service.keeper after.0.state.history
        after.0.keeper) }
    ensures session { IfErr result (λ e. (left : Option (List ℕ)) (first : Point) (keeper : K)
        → HasServed left (C.left conn.old) first
        (point ⟦<C as Sink>⟧ ⟦<T as Clock>⟧ conn.old clock.old service.state) reader.old taken
        → KeptOn ⟦<K as Keeper>⟧ first.state.history keeper service.state.history service.keeper
        → SessionRests ⟦<K as Keeper>⟧ first keeper left (C.left conn.new) (C.written conn.new)
        (T.moments clock.new) reader.new.rest e) }
    ensures keeps_up { IfOk result (λ after. KeepsUpOn ⟦<K as Keeper>⟧ service.keeper
        (output_of ⟦<C as Sink>⟧ conn.old) (output_of ⟦<C as Sink>⟧ conn.new) after.0) }
    ensures keeps_up_to { IfErr result (λ e. (left : Option (List ℕ)) (first : Point) (keeper : K)
        (began : Output) → HasServed left (C.left conn.old) first
        (point ⟦<C as Sink>⟧ ⟦<T as Clock>⟧ conn.old clock.old service.state) reader.old taken
        → KeptOn ⟦<K as Keeper>⟧ first.state.history keeper service.state.history service.keeper
        → KeepsUpOn ⟦<K as Keeper>⟧ keeper began (output_of ⟦<C as Sink>⟧ conn.old) service
        → RestsKeepUp ⟦<K as Keeper>⟧ first keeper left (C.left conn.new) began
        (output_of ⟦<C as Sink>⟧ conn.new) (T.moments clock.new) reader.new.rest e) }
    ensures failed { IfErr result (λ e. e.0 ≡ Ended.Failed
        → Rose (C.read_faults conn.old) (C.read_faults conn.new)
        ⊎ Rose (C.write_faults conn.old) (C.write_faults conn.new)) }
    ensures reads { C.read_faults conn.old ≤ C.read_faults conn.new }
    ensures writes { C.write_faults conn.old ≤ C.write_faults conn.new }
{
    turns_are_of_all_bytes();
    service.stays();
    let count = match read_some(conn, buf, taken) {
        Ok(count) => count,
        Err(Failed) => return Err((Ended::Failed, Next::Go(service))),
    };
    if count == 0 {
        return Err((Ended::Silent, Next::Go(service)));
    }
    let piece = &buf[..count];
    match serve_piece(alloc, routes, service, reader, piece, conn, clock) {
        Ok(after) => Ok((after, count)),
        Err(end) => Err(end),
    }
}

/// Answers all messages, piece by piece. What is left in the reader is no whole message.
pub(crate) fn serve_bytes<K: Keeper, C: Connection, T: Clock>(
    alloc: Global,
    routes: &Routes,
    service: Service<K>,
    reader: &mut HttpReader,
    conn: &mut C,
    clock: &mut T,
) -> (Ended, Next<K>)
    requires { reader.old ≡ start }
    ensures session { SessionRests ⟦<K as Keeper>⟧
        (point ⟦<C as Sink>⟧ ⟦<T as Clock>⟧ conn.old clock.old service.state) service.keeper
        (C.left conn.old) (C.left conn.new) (C.written conn.new) (T.moments clock.new)
        reader.new.rest result }
    ensures keeps_up { RestsKeepUp ⟦<K as Keeper>⟧
        (point ⟦<C as Sink>⟧ ⟦<T as Clock>⟧ conn.old clock.old service.state) service.keeper
        (C.left conn.old) (C.left conn.new) (output_of ⟦<C as Sink>⟧ conn.old)
        (output_of ⟦<C as Sink>⟧ conn.new) (T.moments clock.new) reader.new.rest result }
    ensures failed { result.0 ≡ Ended.Failed
        → Rose (C.read_faults conn.old) (C.read_faults conn.new)
        ⊎ Rose (C.write_faults conn.old) (C.write_faults conn.new) }
{
    turns_are_of_all_bytes();
    // nothing was read yet, so this answers nothing
    let mut service = match serve_turns(alloc, routes, service, reader, conn, clock) {
        Ok(service) => service,
        Err(end) => return end,
    };
    let mut buf = [0u8; PIECE];
    let mut taken: u64 = 0;
    while taken < LIMIT {
        match serve_some(alloc, routes, service, reader, conn, clock, &mut buf, taken) {
            Ok((after, count)) => {
                service = after;
                taken += count as u64;
            }
            Err(end) => return end,
        }
    }
    (Ended::TooMuch, Next::Go(service))
}

/// Answers the messages of a connection, one after another, until it ends, a message closes it, or
/// there is nothing more to be done with it: a head isn't taken, a call of the connection failed,
/// 2^32 bytes were read, or there was no memory. Where the service stopped, its keeper is given
/// back. The keeper has the commands that were accepted; where keeping one failed, that one or not.
pub fn serve_connection<K: Keeper, C: Connection, T: Clock>(
    alloc: Global,
    service: Service<K>,
    conn: &mut C,
    clock: &mut T,
) -> (Ended, Next<K>)
    ensures session { SessionOf ⟦<K as Keeper>⟧
        (point ⟦<C as Sink>⟧ ⟦<T as Clock>⟧ conn.old clock.old service.state) service.keeper
        (C.left conn.old) (C.left conn.new) (C.written conn.new) (T.moments clock.new) result }
    ensures keeps_up { SessionKeepsUp ⟦<K as Keeper>⟧
        (point ⟦<C as Sink>⟧ ⟦<T as Clock>⟧ conn.old clock.old service.state) service.keeper
        (C.left conn.old) (C.left conn.new) (output_of ⟦<C as Sink>⟧ conn.old)
        (output_of ⟦<C as Sink>⟧ conn.new) (T.moments clock.new) result }
    ensures failed { result.0 ≡ Ended.Failed
        → Rose (C.read_faults conn.old) (C.read_faults conn.new)
        ⊎ Rose (C.write_faults conn.old) (C.write_faults conn.new) }
{
    turns_are_of_all_bytes();
    service.stays();
    let Ok(routes) = Routes::new(alloc) else {
        return (Ended::NoMemory, Next::Go(service));
    };
    let Ok(mut reader) = HttpReader::new(alloc) else {
        return (Ended::NoMemory, Next::Go(service));
    };
    serve_bytes(alloc, &routes, service, &mut reader, conn, clock)
}
