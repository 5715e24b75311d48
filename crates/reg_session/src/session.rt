// Lines in, replies out.
ghost use Rattle.std.specs.Prelude.{◌≡◌, ◌≢◌, ◌≤◌, ◌<◌, ◌∷◌, [], List, ℕ, Result, ◌⊎◌, All, IfOk};
ghost use Rattle.std.specs.Prelude.{IfErr, OnOk, length, take, slice_index};
ghost use Rattle.std.specs.Io.KnownBytes.{append_known};
ghost use Rattle.reg_outside.specs.Faults.{Rose};
ghost use Rattle.reg_outside.specs.Streams.{WritesFront};
ghost use Rattle.reg_terms.specs.declared.request.Request.{Request};
ghost use Rattle.reg_terms.specs.declared.refusal.Refusal.{Refusal};
ghost use Rattle.reg_service.specs.Kept.{KeptOn, KeepsNext, LeavesFaults, LeavesKeeper};
ghost use Rattle.reg_service.specs.Marks.{KeepsUp, IsNumbered, output_of};
ghost use Rattle.reg_service.specs.Turn.{AsksNoChange, Follows, turn};
ghost use Rattle.reg_session.specs.Answered.{Answered, Feeds, point};
ghost use Rattle.reg_session.specs.Lines.{lines_from};
ghost use Rattle.reg_session.specs.Pending.{Holds, ReadsAs, AsksFormed};
ghost use Rattle.reg_session.specs.Replies.{line_of, IsLine, WritesReply};
ghost use Rattle.reg_session.specs.Stops.{HaltsIn, HaltsKeepingUp, IsAtLine};

use crate::pending::{LineReading, PendingLine};
use crate::stop::{Stop, stop_of};
use reg_base::Moment;
use reg_json::{append_line, keep_fault_line, no_memory_line};
use reg_keep::Keeper;
use reg_outside::{Clock, Failed, Sink, write_whole};
use reg_service::{Next, Service};
use reg_terms::Reply;
use std::alloc::{AllocError, Global};

/// How many bytes most replies take at most.
const USUAL_ROOM: usize = 512;

/// The byte that ends a line.
pub const LINE_FEED: u8 = 10;

/// The text of a reply, and LF.
pub fn reply_line(alloc: Global, reply: &Reply) -> Result<Vec<u8>, AllocError>
    ensures { IfOk result (λ line. line.items ≡ line_of reply.now) }
{
    append_line(Vec::with_capacity(alloc, USUAL_ROOM)?, reply)
}

pub(crate) fn write_bytes<K: Sink>(out: &mut K, bytes: &[u8]) -> Result<(), Stop>
    ensures written { OnOk result (K.written out.new ≡ append_known (K.written out.old) bytes.now) }
    ensures count { K.write_faults out.old ≤ K.write_faults out.new }
    ensures still { OnOk result (K.write_faults out.new ≡ K.write_faults out.old) }
    ensures output { IfErr result (λ e. (e ≡ Stop.Output)
        × Rose (K.write_faults out.old) (K.write_faults out.new)) }
    ensures front { WritesFront (K.written out.old) (K.written out.new) bytes.now }
    ensures marks { K.marks out.new ≡ K.marks out.old }
{
    match write_whole(out, bytes) {
        Ok(()) => Ok(()),
        Err(Failed) => Err(Stop::Output),
    }
}

/// Writes what stands for a reply that there is no memory to print. Of an accepted command that is
/// nothing, since it can't be taken back, and of a fault itself, since its text is constant. In
/// place of an answer or a refusal it is that there was no memory.
fn write_unprinted<K: Sink>(reply: &Reply, out: &mut K) -> Result<(), Stop>
    ensures written { WritesReply reply.now (K.written out.old) (K.written out.new) result }
    ensures count { K.write_faults out.old ≤ K.write_faults out.new }
    ensures still { OnOk result (K.write_faults out.new ≡ K.write_faults out.old) }
    ensures output { IfErr result (λ e. e ≡ Stop.Output
        → Rose (K.write_faults out.old) (K.write_faults out.new)) }
    ensures others { IfErr result (λ e. (e ≡ Stop.Memory) ⊎ (e ≡ Stop.Output)) }
    ensures marks { K.marks out.new ≡ K.marks out.old }
{
    match reply {
        Reply::Number { .. } | Reply::Loaded { .. } => Err(Stop::Memory),
        Reply::Answer(_) | Reply::Refused(_) | Reply::NoMemory => {
            write_bytes(out, no_memory_line())
        }
        Reply::KeepFault => write_bytes(out, keep_fault_line()),
    }
}

/// Writes a reply, or what stands for it where there is no memory to print it. `Stop::Memory` comes
/// only for an accepted command's reply, and `Stop::Output` only where the output failed. `Ok`
/// leaves its count of faults as it was.
pub fn write_line<K: Sink>(alloc: Global, reply: &Reply, out: &mut K) -> Result<(), Stop>
    ensures written { WritesReply reply.now (K.written out.old) (K.written out.new) result }
    ensures count { K.write_faults out.old ≤ K.write_faults out.new }
    ensures still { OnOk result (K.write_faults out.new ≡ K.write_faults out.old) }
    ensures output { IfErr result (λ e. e ≡ Stop.Output
        → Rose (K.write_faults out.old) (K.write_faults out.new)) }
    ensures others { IfErr result (λ e. (e ≡ Stop.Memory) ⊎ (e ≡ Stop.Output)) }
    ensures marks { K.marks out.new ≡ K.marks out.old }
{
    match reply_line(alloc, reply) {
        Ok(line) => write_bytes(out, &line),
        Err(AllocError) => write_unprinted(reply, out),
    }
}

/// The reply to a line that isn't skipped, and what follows it.
pub fn turn<J: Keeper>(
    alloc: Global,
    service: Service<J>,
    at: Moment,
    reading: LineReading,
) -> (Reply, Next<J>)
    requires { AsksFormed reading }
    ensures turn { (told : Result Request Refusal) → ReadsAs reading told
        → Follows service.state at told result }
    ensures kept { (told : Result Request Refusal) → ReadsAs reading told
        → KeepsNext ⟦<J as Keeper>⟧ service.state.history
        (turn service.state at told).1.history service.keeper result.1 }
    ensures same { (told : Result Request Refusal) → ReadsAs reading told → AsksNoChange told
        → LeavesKeeper service.keeper result.1 }
    ensures still { LeavesFaults ⟦<J as Keeper>⟧ service.keeper result.1 }
    ensures numbered { IsNumbered result.0 result.1 }
{
    match reading {
        LineReading::Asked(request) => service.request(alloc, at, request),
        LineReading::Refused(refusal) => service.refuse(alloc, at, refusal),
        LineReading::NoMemory => {
            service.stays();
            (Reply::NoMemory, Next::Go(service))
        }
    }
}

/// Answers a line, unless it is skipped. The clock is read once, after the line.
pub fn answer_line<J: Keeper, K: Sink, C: Clock>(
    alloc: Global,
    service: Service<J>,
    line: &PendingLine,
    out: &mut K,
    clock: &mut C,
) -> Result<Service<J>, (Stop, J)>
    ensures answered { IfOk result (λ after. (bytes : List ℕ) → Holds line.now bytes →
        Answered (point ⟦<K as Sink>⟧ ⟦<C as Clock>⟧ out.old clock.old service.state) (bytes
        ∷ []) (point ⟦<K as Sink>⟧ ⟦<C as Clock>⟧ out.new clock.new after.state)) }
    ensures kept { IfOk result
        (λ after. KeptOn ⟦<J as Keeper>⟧ service.state.history service.keeper after.state.history
        after.keeper) }
    ensures halted { IfErr result (λ e. (bytes : List ℕ) → Holds line.now bytes →
        HaltsIn ⟦<J as Keeper>⟧ (point ⟦<K as Sink>⟧ ⟦<C as Clock>⟧ out.old clock.old service.state)
        service.keeper (bytes ∷ []) (K.written out.new)
        (Rose (K.write_faults out.old) (K.write_faults out.new)) e.0 e.1) }
    ensures count { K.write_faults out.old ≤ K.write_faults out.new }
    ensures still { IfOk result
        (λ after. (J.keep_faults after.keeper ≡ J.keep_faults service.keeper)
        × (K.write_faults out.new ≡ K.write_faults out.old)) }
    ensures output { IfErr result (λ e. e.0 ≡ Stop.Output
        → Rose (K.write_faults out.old) (K.write_faults out.new)) }
    ensures disk { IfErr result (λ e. e.0 ≡ Stop.Disk
        → Rose (J.keep_faults service.keeper) (J.keep_faults e.1)) }
    ensures others { IfErr result (λ e. IsAtLine e.0) }

    // Before the reply stands a mark, since which each stop leaves the command that it
    // acknowledges.
    ensures keeps_up { IfOk result
        (λ after. KeepsUp ⟦<J as Keeper>⟧ IsLine service.keeper (output_of ⟦<K as Sink>⟧ out.old)
        (output_of ⟦<K as Sink>⟧ out.new) after.state.history after.keeper) }
    ensures keeps_up_to { IfErr result (λ e. (bytes : List ℕ) → Holds line.now bytes →
        HaltsKeepingUp ⟦<J as Keeper>⟧
        (point ⟦<K as Sink>⟧ ⟦<C as Clock>⟧ out.old clock.old service.state) service.keeper
        (bytes ∷ []) (output_of ⟦<K as Sink>⟧ out.old) (output_of ⟦<K as Sink>⟧ out.new)
        (Rose (K.write_faults out.old) (K.write_faults out.new)) e.0 e.1) }
{
    if line.is_skipped() {
        service.stays();
        return Ok(service);
    }
    let moment = clock.now();
    let reading = line.reading(alloc);
    let (reply, next) = turn(alloc, service, moment, reading);
    out.mark(&next.stamp());
    let written = write_line(alloc, &reply, out);
    // By a call, and not at each exit below: there it would be taken apart by its kinds.
    drop(reply);
    match next {
        Next::Stop(cause, keeper) => Err((stop_of(cause), keeper)),
        Next::Go(service) => match written {
            Ok(()) => Ok(service),
            Err(stop) => Err((stop, service.into_keeper())),
        },
    }
}

/// How many bytes stand before the first LF.
pub fn line_end(bytes: &[u8]) -> usize
    ensures within { result ≤ length bytes.now }
    ensures before { All (λ b. b ≢ LINE_FEED) (take result bytes.now) }
    ensures there { result < length bytes.now → slice_index bytes.now result ≡ LINE_FEED }
{
    for (at, byte) in bytes.iter().enumerate() {
        if *byte == LINE_FEED {
            return at;
        }
    }
    bytes.len()
}

/// Takes bytes up to and with the first LF, which ends the line, and says how many they are.
fn feed_line<J: Keeper, K: Sink, C: Clock>(
    alloc: Global,
    service: Service<J>,
    line: PendingLine,
    bytes: &[u8],
    out: &mut K,
    clock: &mut C,
) -> Result<(Service<J>, PendingLine, usize), (Stop, J)>
    ensures within { IfOk result (λ after. after.2 ≤ length bytes.now) }
    ensures some { IfOk result (λ after. 0 < length bytes.now → 0 < after.2) }
    ensures fed { IfOk result (λ after.
        Feeds (point ⟦<K as Sink>⟧ ⟦<C as Clock>⟧ out.old clock.old service.state) line
        (take after.2 bytes.now)
        (point ⟦<K as Sink>⟧ ⟦<C as Clock>⟧ out.new clock.new after.0.state) after.1) }
    ensures kept { IfOk result
        (λ after. KeptOn ⟦<J as Keeper>⟧ service.state.history service.keeper after.0.state.history
        after.0.keeper) }
    ensures halted { IfErr result (λ e. (before : List ℕ) → Holds line before →
        HaltsIn ⟦<J as Keeper>⟧ (point ⟦<K as Sink>⟧ ⟦<C as Clock>⟧ out.old clock.old service.state)
        service.keeper (lines_from before bytes.now) (K.written out.new)
        (Rose (K.write_faults out.old) (K.write_faults out.new)) e.0 e.1) }
    ensures count { K.write_faults out.old ≤ K.write_faults out.new }
    ensures still { IfOk result
        (λ after. (J.keep_faults after.0.keeper ≡ J.keep_faults service.keeper)
        × (K.write_faults out.new ≡ K.write_faults out.old)) }
    ensures output { IfErr result (λ e. e.0 ≡ Stop.Output
        → Rose (K.write_faults out.old) (K.write_faults out.new)) }
    ensures disk { IfErr result (λ e. e.0 ≡ Stop.Disk
        → Rose (J.keep_faults service.keeper) (J.keep_faults e.1)) }
    ensures others { IfErr result (λ e. IsAtLine e.0) }
    ensures keeps_up { IfOk result
        (λ after. KeepsUp ⟦<J as Keeper>⟧ IsLine service.keeper (output_of ⟦<K as Sink>⟧ out.old)
        (output_of ⟦<K as Sink>⟧ out.new) after.0.state.history after.0.keeper) }
    ensures keeps_up_to { IfErr result (λ e. (before : List ℕ) → Holds line before →
        HaltsKeepingUp ⟦<J as Keeper>⟧
        (point ⟦<K as Sink>⟧ ⟦<C as Clock>⟧ out.old clock.old service.state) service.keeper
        (lines_from before bytes.now) (output_of ⟦<K as Sink>⟧ out.old)
        (output_of ⟦<K as Sink>⟧ out.new)
        (Rose (K.write_faults out.old) (K.write_faults out.new)) e.0 e.1) }
{
    let end = line_end(bytes);
    let (front, _) = bytes.split_at(end);
    let line = line.extend(front);
    if end == bytes.len() {
        service.stays();
        return Ok((service, line, end));
    }
    let service = answer_line(alloc, service, &line, out, clock)?;
    Ok((service, line.clear(alloc), end + 1))
}

/// Answers the lines that a piece of input ends, and keeps the rest of it pending.
pub fn feed<J: Keeper, K: Sink, C: Clock>(
    alloc: Global,
    service: Service<J>,
    line: PendingLine,
    piece: &[u8],
    out: &mut K,
    clock: &mut C,
) -> Result<(Service<J>, PendingLine), (Stop, J)>
    ensures fed { IfOk result (λ after.
        Feeds (point ⟦<K as Sink>⟧ ⟦<C as Clock>⟧ out.old clock.old service.state) line piece.now
        (point ⟦<K as Sink>⟧ ⟦<C as Clock>⟧ out.new clock.new after.0.state) after.1) }
    ensures kept { IfOk result
        (λ after. KeptOn ⟦<J as Keeper>⟧ service.state.history service.keeper after.0.state.history
        after.0.keeper) }
    ensures halted { IfErr result (λ e. (before : List ℕ) → Holds line before →
        HaltsIn ⟦<J as Keeper>⟧ (point ⟦<K as Sink>⟧ ⟦<C as Clock>⟧ out.old clock.old service.state)
        service.keeper (lines_from before piece.now) (K.written out.new)
        (Rose (K.write_faults out.old) (K.write_faults out.new)) e.0 e.1) }
    ensures count { K.write_faults out.old ≤ K.write_faults out.new }
    ensures still { IfOk result
        (λ after. (J.keep_faults after.0.keeper ≡ J.keep_faults service.keeper)
        × (K.write_faults out.new ≡ K.write_faults out.old)) }
    ensures output { IfErr result (λ e. e.0 ≡ Stop.Output
        → Rose (K.write_faults out.old) (K.write_faults out.new)) }
    ensures disk { IfErr result (λ e. e.0 ≡ Stop.Disk
        → Rose (J.keep_faults service.keeper) (J.keep_faults e.1)) }
    ensures others { IfErr result (λ e. IsAtLine e.0) }
    ensures keeps_up { IfOk result
        (λ after. KeepsUp ⟦<J as Keeper>⟧ IsLine service.keeper (output_of ⟦<K as Sink>⟧ out.old)
        (output_of ⟦<K as Sink>⟧ out.new) after.0.state.history after.0.keeper) }
    ensures keeps_up_to { IfErr result (λ e. (before : List ℕ) → Holds line before →
        HaltsKeepingUp ⟦<J as Keeper>⟧
        (point ⟦<K as Sink>⟧ ⟦<C as Clock>⟧ out.old clock.old service.state) service.keeper
        (lines_from before piece.now) (output_of ⟦<K as Sink>⟧ out.old)
        (output_of ⟦<K as Sink>⟧ out.new)
        (Rose (K.write_faults out.old) (K.write_faults out.new)) e.0 e.1) }
{
    service.stays();
    let mut service = service;
    let mut line = line;
    let mut at = 0;
    while at < piece.len() {
        let (_, rest) = piece.split_at(at);
        let count;
        (service, line, count) = feed_line(alloc, service, line, rest, out, clock)?;
        at += count;
    }
    Ok((service, line))
}
