// Lines that are answered together: their commands wait in memory until one append keeps them all,
// and their replies until that is done.
ghost use Rattle.std.specs.Prelude.{◌≡◌, ◌≤◌, ◌<◌, ◌-◌, List, ℕ, IfSome, IfOk, IfErr};
ghost use Rattle.std.specs.Prelude.{OnOk, false, length, take, option_map};
ghost use Rattle.std.specs.Io.KnownBytes.{append_known};
ghost use Rattle.reg_outside.specs.Faults.{Rose};
ghost use Rattle.reg_service.specs.Holding.{first_of};
ghost use Rattle.reg_service.specs.Kept.{KeptOn};
ghost use Rattle.reg_service.specs.Marks.{KeepsUp, KeepsUpInPart, output_of};
ghost use Rattle.reg_service.specs.Opening.{payloads_of};
ghost use Rattle.reg_session.specs.Answered.{Feeds, point};
ghost use Rattle.reg_session.specs.Input.{AnswersInput};
ghost use Rattle.reg_session.specs.Lines.{lines_from};
ghost use Rattle.reg_session.specs.Pending.{Holds};
ghost use Rattle.reg_session.specs.Replies.{IsLine};
ghost use Rattle.reg_session.specs.Stops.{IsAtLine};
ghost use Rattle.reg_session.specs.Together.{AreReplies, HaltsTogether, StopsKeeping};
ghost use Rattle.reg_session.specs.Together.{StopsTogether, StopsTogetherKeepingUp, line_feeds};

use crate::input::{LIMIT, finish, read_some, stop_at_input};
use crate::pending::PendingLine;
use crate::session::{LINE_FEED, feed, write_bytes};
use crate::stop::Stop;
use reg_json::{keep_fault_line, no_memory_line};
use reg_keep::Keeper;
use reg_outside::{Clock, MemorySink, Sink, Source};
use reg_service::{Service, Waiting};
use std::alloc::Global;

/// How many bytes are read at a time where lines are answered together, so that many lines are read
/// by one read.
const LARGE_PIECE: usize = 1 << 16;

/// How many bytes there are up to the last of so many LFs, and with it. Where there are fewer LFs,
/// it is all of them.
#[tactic(auto, using(crate::proofs::Batching::feeds_no, crate::proofs::Batching::feeds_yes))]
fn batch_end(bytes: &[u8], most: u64) -> usize
    requires { 0 < most }
    ensures within { result ≤ length bytes.now }
    ensures few { line_feeds (take result bytes.now) ≤ most }
    ensures some { 0 < length bytes.now → 0 < result }

    // There is no earlier end and, but for all bytes, no later one.
    ensures first { line_feeds (take (result - 1) bytes.now) < most }
    ensures last { result < length bytes.now → line_feeds (take result bytes.now) ≡ most }
{
    let mut ended: u64 = 0;
    for (at, byte) in bytes.iter().enumerate() {
        if *byte == LINE_FEED {
            ended += 1;
            if ended == most {
                return at + 1;
            }
        }
    }
    bytes.len()
}

/// Keeps a batch's commands by one append, and then writes its replies, behind a mark. Where the
/// keeper fails, the line of that fault is written in their place. Where either fails, the keeper
/// is given back.
fn settle_batch<J: Keeper, K: Sink>(
    held: Service<Waiting>,
    keeper: J,
    replies: &[u8],
    out: &mut K,
) -> Result<Service<J>, (Stop, J)>
    requires payloads { IfSome (J.payloads keeper) (λ ps. ps ≡ payloads_of (first_of held)) }
    requires going { J.has_failed keeper ≡ false }
    requires lines { AreReplies held.state.history replies.now }
    ensures same { IfOk result (λ s. s.state ≡ held.state) }
    ensures written { OnOk result
        (K.written out.new ≡ append_known (K.written out.old) replies.now) }
    ensures kept { IfOk result
        (λ s. KeptOn ⟦<J as Keeper>⟧ (first_of held) keeper held.state.history s.keeper) }
    ensures given_back { IfErr result
        (λ e. KeptOn ⟦<J as Keeper>⟧ (first_of held) keeper held.state.history e.1) }
    ensures stops { IfErr result
        (λ e. StopsKeeping ⟦<J as Keeper>⟧ (first_of held) held.state.history replies.now
        (J.payloads keeper) (K.written out.old) (K.written out.new)
        (Rose (K.write_faults out.old) (K.write_faults out.new)) e.0 e.1) }
    ensures count { K.write_faults out.old ≤ K.write_faults out.new }
    ensures still { IfOk result
        (λ s. (J.keep_faults s.keeper ≡ J.keep_faults keeper)
        × (K.write_faults out.new ≡ K.write_faults out.old)) }
    ensures output { IfErr result (λ e. e.0 ≡ Stop.Output
        → Rose (K.write_faults out.old) (K.write_faults out.new)) }
    ensures disk { IfErr result (λ e. e.0 ≡ Stop.Disk
        → Rose (J.keep_faults keeper) (J.keep_faults e.1)) }
    ensures keeps_up { IfOk result
        (λ s. KeepsUp ⟦<J as Keeper>⟧ IsLine keeper (output_of ⟦<K as Sink>⟧ out.old)
        (output_of ⟦<K as Sink>⟧ out.new) held.state.history s.keeper) }
    ensures keeps_up_to { IfErr result
        (λ e. KeepsUpInPart ⟦<J as Keeper>⟧ IsLine keeper (output_of ⟦<K as Sink>⟧ out.old)
        (output_of ⟦<K as Sink>⟧ out.new) held.state.history e.1) }
{
    match held.settle(keeper) {
        Ok(service) => {
            out.mark(&service.stamp());
            match write_bytes(out, replies) {
                Ok(()) => Ok(service),
                Err(stop) => Err((stop, service.into_keeper())),
            }
        }
        Err(keeper) => {
            let _ = write_bytes(out, keep_fault_line());
            Err((Stop::Disk, keeper))
        }
    }
}

/// Answers the first lines that these bytes end together, `most` of them at most, and says how many
/// bytes it took. Where it took all bytes, those behind the last LF stay pending. Where there is no
/// memory for the batch, nothing of it is kept, and one line says so in place of its replies.
fn answer_batch<J: Keeper, K: Sink, C: Clock>(
    alloc: Global,
    most: u64,
    service: Service<J>,
    line: PendingLine,
    bytes: &[u8],
    out: &mut K,
    clock: &mut C,
) -> Result<(Service<J>, PendingLine, usize), (Stop, J)>
    requires { 0 < most }
    ensures within { IfOk result (λ after. after.2 ≤ length bytes.now) }
    ensures some { IfOk result (λ after. 0 < length bytes.now → 0 < after.2) }
    ensures fed { IfOk result (λ after.
        Feeds (point ⟦<K as Sink>⟧ ⟦<C as Clock>⟧ out.old clock.old service.state) line
        (take after.2 bytes.now)
        (point ⟦<K as Sink>⟧ ⟦<C as Clock>⟧ out.new clock.new after.0.state) after.1) }
    ensures kept { IfOk result
        (λ after. KeptOn ⟦<J as Keeper>⟧ service.state.history service.keeper after.0.state.history
        after.0.keeper) }
    ensures count { K.write_faults out.old ≤ K.write_faults out.new }
    ensures still { IfOk result
        (λ after. (J.keep_faults after.0.keeper ≡ J.keep_faults service.keeper)
        × (K.write_faults out.new ≡ K.write_faults out.old)) }
    ensures output { IfErr result (λ e. e.0 ≡ Stop.Output
        → Rose (K.write_faults out.old) (K.write_faults out.new)) }
    ensures disk { IfErr result (λ e. e.0 ≡ Stop.Disk
        → Rose (J.keep_faults service.keeper) (J.keep_faults e.1)) }
    ensures others { IfErr result (λ e. IsAtLine e.0) }
    ensures keeps_up { IfOk result
        (λ after. KeepsUp ⟦<J as Keeper>⟧ IsLine service.keeper (output_of ⟦<K as Sink>⟧ out.old)
        (output_of ⟦<K as Sink>⟧ out.new) after.0.state.history after.0.keeper) }
    ensures halted { IfErr result (λ e. (before : List ℕ) → Holds line before →
        HaltsTogether most ⟦<J as Keeper>⟧
        (point ⟦<K as Sink>⟧ ⟦<C as Clock>⟧ out.old clock.old service.state) service.keeper
        (lines_from before bytes.now) (output_of ⟦<K as Sink>⟧ out.old)
        (output_of ⟦<K as Sink>⟧ out.new)
        (Rose (K.write_faults out.old) (K.write_faults out.new)) e.0 e.1) }
{
    let end = batch_end(bytes, most);
    let (front, _) = bytes.split_at(end);
    let (held, keeper) = service.hold(alloc);
    let mut replies = MemorySink::new(alloc, Vec::new(alloc));
    match feed(alloc, held, line, front, &mut replies, clock) {
        Ok((held, line)) => {
            let service = settle_batch(held, keeper, replies.written(), out)?;
            Ok((service, line, end))
        }
        Err(_) => {
            let _ = write_bytes(out, no_memory_line());
            Err((Stop::Memory, keeper))
        }
    }
}

/// Answers the lines that a piece of input ends, up to so many together, and keeps the rest of it
/// pending.
fn answer_piece<J: Keeper, K: Sink, C: Clock>(
    alloc: Global,
    most: u64,
    service: Service<J>,
    line: PendingLine,
    piece: &[u8],
    out: &mut K,
    clock: &mut C,
) -> Result<(Service<J>, PendingLine), (Stop, J)>
    requires { 0 < most }
    ensures fed { IfOk result (λ after.
        Feeds (point ⟦<K as Sink>⟧ ⟦<C as Clock>⟧ out.old clock.old service.state) line piece.now
        (point ⟦<K as Sink>⟧ ⟦<C as Clock>⟧ out.new clock.new after.0.state) after.1) }
    ensures kept { IfOk result
        (λ after. KeptOn ⟦<J as Keeper>⟧ service.state.history service.keeper after.0.state.history
        after.0.keeper) }
    ensures count { K.write_faults out.old ≤ K.write_faults out.new }
    ensures still { IfOk result
        (λ after. (J.keep_faults after.0.keeper ≡ J.keep_faults service.keeper)
        × (K.write_faults out.new ≡ K.write_faults out.old)) }
    ensures output { IfErr result (λ e. e.0 ≡ Stop.Output
        → Rose (K.write_faults out.old) (K.write_faults out.new)) }
    ensures disk { IfErr result (λ e. e.0 ≡ Stop.Disk
        → Rose (J.keep_faults service.keeper) (J.keep_faults e.1)) }
    ensures others { IfErr result (λ e. IsAtLine e.0) }
    ensures keeps_up { IfOk result
        (λ after. KeepsUp ⟦<J as Keeper>⟧ IsLine service.keeper (output_of ⟦<K as Sink>⟧ out.old)
        (output_of ⟦<K as Sink>⟧ out.new) after.0.state.history after.0.keeper) }
    ensures halted { IfErr result (λ e. (before : List ℕ) → Holds line before →
        HaltsTogether most ⟦<J as Keeper>⟧
        (point ⟦<K as Sink>⟧ ⟦<C as Clock>⟧ out.old clock.old service.state) service.keeper
        (lines_from before piece.now) (output_of ⟦<K as Sink>⟧ out.old)
        (output_of ⟦<K as Sink>⟧ out.new)
        (Rose (K.write_faults out.old) (K.write_faults out.new)) e.0 e.1) }
{
    service.stays();
    let mut service = service;
    let mut line = line;
    let mut at = 0;
    while at < piece.len() {
        let (_, rest) = piece.split_at(at);
        let count;
        (service, line, count) = answer_batch(alloc, most, service, line, rest, out, clock)?;
        at += count;
    }
    Ok((service, line))
}

/// Answers all lines of the input as `answer_input` does, and writes the
/// same bytes. Of the lines that were read already, up to `most` are answered together: one append
/// keeps all their commands, and only then are their replies written. No line waits for more input.
///
/// Where there is no memory for a batch, or the keeper fails, one line says so in place of its
/// replies. Then nothing of it is kept, or a front of its commands may be. Where it stops, the
/// keeper is given back.
pub fn answer_together<S: Source, J: Keeper, K: Sink, C: Clock>(
    alloc: Global,
    most: u64,
    service: Service<J>,
    input: &mut S,
    out: &mut K,
    clock: &mut C,
) -> Result<Service<J>, (Stop, J)>
    requires { 0 < most }
    ensures answered { IfOk result (λ to.
        AnswersInput (point ⟦<K as Sink>⟧ ⟦<C as Clock>⟧ out.old clock.old service.state)
        (S.left input.old) (S.left input.new)
        (point ⟦<K as Sink>⟧ ⟦<C as Clock>⟧ out.new clock.new to.state)) }
    ensures flushed { OnOk result (K.flushed out.new ≡ option_map length (K.written out.new)) }
    ensures kept { IfOk result
        (λ to. KeptOn ⟦<J as Keeper>⟧ service.state.history service.keeper to.state.history
        to.keeper) }
    ensures halted { IfErr result (λ e.
        StopsTogether most ⟦<J as Keeper>⟧
        (point ⟦<K as Sink>⟧ ⟦<C as Clock>⟧ out.old clock.old service.state) service.keeper
        (S.left input.old) (S.left input.new) (K.written out.new) (K.flushed out.new)
        (Rose (K.write_faults out.old) (K.write_faults out.new)) e.0 e.1) }
    ensures input { IfErr result (λ e. e.0 ≡ Stop.Input
        → Rose (S.read_faults input.old) (S.read_faults input.new)) }
    ensures output { IfErr result (λ e. e.0 ≡ Stop.Output
        → Rose (K.write_faults out.old) (K.write_faults out.new)) }
    ensures disk { IfErr result (λ e. e.0 ≡ Stop.Disk
        → Rose (J.keep_faults service.keeper) (J.keep_faults e.1)) }

    // Each count of faults is as it was where all lines were answered, and where there was too much
    // of the input.
    ensures still { IfOk result
        (λ to. (J.keep_faults to.keeper ≡ J.keep_faults service.keeper)
        × (K.write_faults out.new ≡ K.write_faults out.old)
        × (S.read_faults input.new ≡ S.read_faults input.old)) }
    ensures still_too_much { IfErr result (λ e. e.0 ≡ Stop.TooMuch
        → (J.keep_faults e.1 ≡ J.keep_faults service.keeper)
        × (K.write_faults out.new ≡ K.write_faults out.old)
        × (S.read_faults input.new ≡ S.read_faults input.old)) }

    // Before each reply that acknowledges a command stands a mark, since which each stop leaves the
    // command.
    ensures keeps_up { IfOk result
        (λ to. KeepsUp ⟦<J as Keeper>⟧ IsLine service.keeper (output_of ⟦<K as Sink>⟧ out.old)
        (output_of ⟦<K as Sink>⟧ out.new) to.state.history to.keeper) }
    ensures keeps_up_to { IfErr result (λ e.
        StopsTogetherKeepingUp most ⟦<J as Keeper>⟧
        (point ⟦<K as Sink>⟧ ⟦<C as Clock>⟧ out.old clock.old service.state) service.keeper
        (S.left input.old) (S.left input.new) (output_of ⟦<K as Sink>⟧ out.old)
        (output_of ⟦<K as Sink>⟧ out.new) (K.flushed out.new)
        (Rose (K.write_faults out.old) (K.write_faults out.new)) e.0 e.1) }
{
    service.stays();
    let mut service = service;
    let mut line = PendingLine::start(alloc);
    let mut buf = [0u8; LARGE_PIECE];
    let mut taken: u64 = 0;
    while taken < LIMIT {
        let count = match read_some(input, &mut buf, taken) {
            Ok(count) => count,
            Err(stop) => {
                drop(line);
                return Err(stop_at_input(service, out, stop));
            }
        };
        if count == 0 {
            let last = finish(alloc, service, &line, out, clock);
            drop(line);
            return last;
        }
        (service, line) = answer_piece(alloc, most, service, line, &buf[..count], out, clock)?;
        taken += count as u64;
    }
    drop(line);
    Err(stop_at_input(service, out, Stop::TooMuch))
}
