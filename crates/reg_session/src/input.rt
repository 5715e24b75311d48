// The input, read to its end.
ghost use Rattle.std.specs.Prelude.{◌≡◌, ◌≤◌, ◌<◌, ◌^◌, ◌+◌, ◌∷◌, [], List, take, ℕ, length};
ghost use Rattle.std.specs.Prelude.{option_map, Result, Ok, IfOk, IfErr, OnOk};
ghost use Rattle.std.specs.Io.KnownBytes.{IsAtEnd, prepend_known};
ghost use Rattle.reg_outside.specs.Faults.{Rose};
ghost use Rattle.reg_service.specs.Kept.{KeptOn};
ghost use Rattle.reg_service.specs.Marks.{KeepsUp, output_of};
ghost use Rattle.reg_service.specs.Opening.{payloads_of, FrontsReopen};
ghost use Rattle.reg_session.specs.Answered.{Answered, point};
ghost use Rattle.reg_session.specs.Input.{AnswersInput, FlushesFor, StopsInput, StopsLast};
ghost use Rattle.reg_session.specs.Input.{StopsInputKeepingUp, StopsLastKeepingUp};
ghost use Rattle.reg_session.specs.Pending.{Holds};
ghost use Rattle.reg_session.specs.Replies.{IsLine};
ghost use Rattle.reg_session.specs.Stops.{IsAtLine};

use crate::pending::PendingLine;
use crate::session::{answer_line, feed};
use crate::stop::Stop;
use reg_keep::Keeper;
use reg_outside::{Clock, Failed, Sink, Source};
use reg_service::Service;
use std::alloc::Global;

/// How many bytes of input a session takes at most.
pub const LIMIT: u64 = 1 << 32;

/// How many bytes are read at a time.
pub const PIECE: usize = 4096;

/// Reads a piece of input, once so many bytes are taken: as many more as a session takes, at most.
pub fn read_some<S: Source>(input: &mut S, buf: &mut [u8], taken: u64) -> Result<usize, Stop>
    requires fits { PIECE ≤ length buf.old }
    requires some { taken < LIMIT }
    ensures within { IfOk result (λ n. taken + n ≤ LIMIT) }
    ensures filled { IfOk result (λ n. n ≤ length buf.new) }
    ensures bytes { IfOk result (λ n. S.left input.old
        ≡ prepend_known (take n buf.new) (S.left input.new)) }
    ensures end { IfOk result (λ n. n ≡ 0 → IsAtEnd (S.left input.new)) }
    ensures count { S.read_faults input.old ≤ S.read_faults input.new }
    ensures still { OnOk result (S.read_faults input.new ≡ S.read_faults input.old) }
    ensures input { IfErr result (λ e. (e ≡ Stop.Input)
        × Rose (S.read_faults input.old) (S.read_faults input.new)) }
    ensures same { IfErr result (λ e. S.left input.new ≡ S.left input.old) }
{
    let room = (LIMIT - taken).min(buf.len() as u64) as usize;
    match input.read(&mut buf[..room]) {
        Ok(count) => Ok(count),
        Err(Failed) => Err(Stop::Input),
    }
}

/// Hands on what was written so far. `Stop::Output` comes only where the output failed; else its
/// count of faults stays.
pub fn flush<K: Sink>(out: &mut K) -> Result<(), Stop>
    ensures same { K.written out.new ≡ K.written out.old }
    ensures flushed { OnOk result (K.flushed out.new ≡ option_map length (K.written out.new)) }
    ensures count { K.write_faults out.old ≤ K.write_faults out.new }
    ensures still { OnOk result (K.write_faults out.new ≡ K.write_faults out.old) }
    ensures output { IfErr result (λ e. (e ≡ Stop.Output)
        × Rose (K.write_faults out.old) (K.write_faults out.new)) }
    ensures marks { K.marks out.new ≡ K.marks out.old }
{
    match out.flush() {
        Ok(()) => Ok(()),
        Err(Failed) => Err(Stop::Output),
    }
}

/// Flushes where the input stops a session, and says why it stopped: for that, or since the flush
/// failed.
pub fn stop_flushed<K: Sink>(out: &mut K, why: Stop) -> Stop
    ensures same { K.written out.new ≡ K.written out.old }
    ensures why { FlushesFor why result (K.written out.new) (K.flushed out.new)
        (K.write_faults out.old) (K.write_faults out.new) }
    ensures count { K.write_faults out.old ≤ K.write_faults out.new }
    ensures marks { K.marks out.new ≡ K.marks out.old }
{
    match flush(out) {
        Ok(()) => why,
        Err(stop) => stop,
    }
}

/// Ends a session that its input stops, and no line: it flushes, and gives the keeper back, of
/// which each stop leaves the history that was answered.
pub(crate) fn stop_at_input<J: Keeper, K: Sink>(
    service: Service<J>,
    out: &mut K,
    why: Stop,
) -> (Stop, J)
    ensures same { K.written out.new ≡ K.written out.old }
    ensures why { FlushesFor why result.0 (K.written out.new) (K.flushed out.new)
        (K.write_faults out.old) (K.write_faults out.new) }
    ensures count { K.write_faults out.old ≤ K.write_faults out.new }
    ensures keeper { result.1 ≡ service.keeper }
    ensures leaves { (r : Result (List (List ℕ)) ℕ) → J.stop_leaves result.1 r
        → r ≡ Ok (payloads_of service.state.history) }
    ensures fronts { FrontsReopen service.state.history }
    ensures marks { K.marks out.new ≡ K.marks out.old }
{
    (stop_flushed(out, why), service.into_keeper())
}

/// Answers the last line, which no LF ends, and flushes.
pub(crate) fn finish<J: Keeper, K: Sink, C: Clock>(
    alloc: Global,
    service: Service<J>,
    line: &PendingLine,
    out: &mut K,
    clock: &mut C,
) -> Result<Service<J>, (Stop, J)>
    ensures answered { IfOk result (λ after. (bytes : List ℕ) → Holds line.now bytes →
        Answered (point ⟦<K as Sink>⟧ ⟦<C as Clock>⟧ out.old clock.old service.state) (bytes
        ∷ []) (point ⟦<K as Sink>⟧ ⟦<C as Clock>⟧ out.new clock.new after.state)) }
    ensures flushed { OnOk result (K.flushed out.new ≡ option_map length (K.written out.new)) }
    ensures kept { IfOk result
        (λ after. KeptOn ⟦<J as Keeper>⟧ service.state.history service.keeper after.state.history
        after.keeper) }
    ensures halted { IfErr result (λ e. (bytes : List ℕ) → Holds line.now bytes →
        StopsLast ⟦<J as Keeper>⟧
        (point ⟦<K as Sink>⟧ ⟦<C as Clock>⟧ out.old clock.old service.state) service.keeper bytes
        (K.written out.new) (Rose (K.write_faults out.old) (K.write_faults out.new)) e.0 e.1) }
    ensures count { K.write_faults out.old ≤ K.write_faults out.new }
    ensures still { IfOk result
        (λ after. (J.keep_faults after.keeper ≡ J.keep_faults service.keeper)
        × (K.write_faults out.new ≡ K.write_faults out.old)) }
    ensures output { IfErr result (λ e. e.0 ≡ Stop.Output
        → Rose (K.write_faults out.old) (K.write_faults out.new)) }
    ensures disk { IfErr result (λ e. e.0 ≡ Stop.Disk
        → Rose (J.keep_faults service.keeper) (J.keep_faults e.1)) }
    ensures others { IfErr result (λ e. IsAtLine e.0) }
    ensures keeps_up { IfOk result
        (λ after. KeepsUp ⟦<J as Keeper>⟧ IsLine service.keeper (output_of ⟦<K as Sink>⟧ out.old)
        (output_of ⟦<K as Sink>⟧ out.new) after.state.history after.keeper) }
    ensures keeps_up_to { IfErr result (λ e. (bytes : List ℕ) → Holds line.now bytes →
        StopsLastKeepingUp ⟦<J as Keeper>⟧
        (point ⟦<K as Sink>⟧ ⟦<C as Clock>⟧ out.old clock.old service.state) service.keeper bytes
        (output_of ⟦<K as Sink>⟧ out.old) (output_of ⟦<K as Sink>⟧ out.new)
        (Rose (K.write_faults out.old) (K.write_faults out.new)) e.0 e.1) }
{
    let service = answer_line(alloc, service, line, out, clock)?;
    match flush(out) {
        Ok(()) => Ok(service),
        Err(stop) => Err((stop, service.into_keeper())),
    }
}

/// Answers all lines of the input, at most 2^32 bytes of it, and flushes. Where the input fails, or
/// there is more of it, it answers the lines that came whole, and flushes. Where it stops, the
/// keeper is given back.
pub fn answer_input<S: Source, J: Keeper, K: Sink, C: Clock>(
    alloc: Global,
    service: Service<J>,
    input: &mut S,
    out: &mut K,
    clock: &mut C,
) -> Result<Service<J>, (Stop, J)>
    ensures answered { IfOk result (λ to.
        AnswersInput (point ⟦<K as Sink>⟧ ⟦<C as Clock>⟧ out.old clock.old service.state)
        (S.left input.old) (S.left input.new)
        (point ⟦<K as Sink>⟧ ⟦<C as Clock>⟧ out.new clock.new to.state)) }
    ensures flushed { OnOk result (K.flushed out.new ≡ option_map length (K.written out.new)) }
    ensures kept { IfOk result
        (λ to. KeptOn ⟦<J as Keeper>⟧ service.state.history service.keeper to.state.history
        to.keeper) }
    ensures halted { IfErr result (λ e.
        StopsInput ⟦<J as Keeper>⟧
        (point ⟦<K as Sink>⟧ ⟦<C as Clock>⟧ out.old clock.old service.state) service.keeper
        (S.left input.old) (S.left input.new) (K.written out.new) (K.flushed out.new)
        (Rose (K.write_faults out.old) (K.write_faults out.new)) e.0 e.1) }
    ensures input { IfErr result (λ e. e.0 ≡ Stop.Input
        → Rose (S.read_faults input.old) (S.read_faults input.new)) }
    ensures output { IfErr result (λ e. e.0 ≡ Stop.Output
        → Rose (K.write_faults out.old) (K.write_faults out.new)) }
    ensures disk { IfErr result (λ e. e.0 ≡ Stop.Disk
        → Rose (J.keep_faults service.keeper) (J.keep_faults e.1)) }

    // Each count of faults is as it was where all lines were answered, and where there was too much
    // of the input.
    ensures still { IfOk result
        (λ to. (J.keep_faults to.keeper ≡ J.keep_faults service.keeper)
        × (K.write_faults out.new ≡ K.write_faults out.old)
        × (S.read_faults input.new ≡ S.read_faults input.old)) }
    ensures still_too_much { IfErr result (λ e. e.0 ≡ Stop.TooMuch
        → (J.keep_faults e.1 ≡ J.keep_faults service.keeper)
        × (K.write_faults out.new ≡ K.write_faults out.old)
        × (S.read_faults input.new ≡ S.read_faults input.old)) }

    // Before each reply that acknowledges a command stands a mark, since which each stop leaves the
    // command.
    ensures keeps_up { IfOk result
        (λ to. KeepsUp ⟦<J as Keeper>⟧ IsLine service.keeper (output_of ⟦<K as Sink>⟧ out.old)
        (output_of ⟦<K as Sink>⟧ out.new) to.state.history to.keeper) }
    ensures keeps_up_to { IfErr result (λ e.
        StopsInputKeepingUp ⟦<J as Keeper>⟧
        (point ⟦<K as Sink>⟧ ⟦<C as Clock>⟧ out.old clock.old service.state) service.keeper
        (S.left input.old) (S.left input.new) (output_of ⟦<K as Sink>⟧ out.old)
        (output_of ⟦<K as Sink>⟧ out.new) (K.flushed out.new)
        (Rose (K.write_faults out.old) (K.write_faults out.new)) e.0 e.1) }
{
    service.stays();
    let mut service = service;
    let mut line = PendingLine::start(alloc);
    let mut buf = [0u8; PIECE];
    let mut taken: u64 = 0;
    while taken < LIMIT {
        let count = match read_some(input, &mut buf, taken) {
            Ok(count) => count,
            Err(stop) => {
                drop(line);
                return Err(stop_at_input(service, out, stop));
            }
        };
        if count == 0 {
            let last = finish(alloc, service, &line, out, clock);
            drop(line);
            return last;
        }
        (service, line) = feed(alloc, service, line, &buf[..count], out, clock)?;
        taken += count as u64;
    }
    drop(line);
    Err(stop_at_input(service, out, Stop::TooMuch))
}
