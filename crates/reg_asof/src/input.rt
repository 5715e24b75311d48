// The lines of an input, answered by the registry as it was.
ghost use Rattle.std.specs.Prelude.{◌≡◌, ◌≤◌, ◌<◌, ◌∷◌, [], ℕ, List, IfErr, IfOk, OnErr, OnOk};
ghost use Rattle.std.specs.Prelude.{length, take};
ghost use Rattle.reg_outside.specs.Faults.{Rose};
ghost use Rattle.reg_session.specs.Input.{IsAllFlushed};
ghost use Rattle.reg_session.specs.Lines.{lines_from};
ghost use Rattle.reg_session.specs.Pending.{Holds};
ghost use Rattle.reg_asof.specs.Ends.{StopsTelling, Tells, TellsInput};
ghost use Rattle.reg_asof.specs.Told.{Told, ToldInPart};

use crate::earlier::Earlier;
use reg_outside::{Sink, Source};
use reg_session::{
    LIMIT, PIECE, PendingLine, Stop, flush, line_end, read_some, stop_flushed, write_line,
};
use std::alloc::Global;

/// Answers a line, unless it is skipped.
fn answer_line<K: Sink>(
    alloc: Global,
    earlier: &Earlier,
    line: &PendingLine,
    out: &mut K,
) -> Result<(), Stop>
    ensures told { OnOk result ((bytes : List ℕ) → Holds line.now bytes →
        Told earlier.now (bytes ∷ []) (K.written out.old) (K.written out.new)) }
    ensures part { OnErr result ((bytes : List ℕ) → Holds line.now bytes →
        ToldInPart earlier.now (bytes ∷ []) (K.written out.old) (K.written out.new)) }
    ensures count { K.write_faults out.old ≤ K.write_faults out.new }
    ensures output { IfErr result (λ e. (e ≡ Stop.Output)
        × Rose (K.write_faults out.old) (K.write_faults out.new)) }
{
    if line.is_skipped() {
        return Ok(());
    }
    let reply = earlier.answer(alloc, line);
    let written = write_line(alloc, &reply, out);
    // By a call: dropped in place it would be taken apart by its kinds.
    drop(reply);
    written
}

/// Takes bytes up to and with the first LF, which ends the line, and says how many they are.
fn feed_line<K: Sink>(
    alloc: Global,
    earlier: &Earlier,
    line: PendingLine,
    bytes: &[u8],
    out: &mut K,
) -> Result<(PendingLine, usize), Stop>
    ensures within { IfOk result (λ after. after.1 ≤ length bytes.now) }
    ensures some { IfOk result (λ after. 0 < length bytes.now → 0 < after.1) }
    ensures fed { IfOk result (λ after. Tells earlier.now line (take after.1 bytes.now) after.0
        (K.written out.old) (K.written out.new)) }
    ensures part { OnErr result ((before : List ℕ) → Holds line before →
        ToldInPart earlier.now (lines_from before bytes.now) (K.written out.old)
        (K.written out.new)) }
    ensures count { K.write_faults out.old ≤ K.write_faults out.new }
    ensures output { IfErr result (λ e. (e ≡ Stop.Output)
        × Rose (K.write_faults out.old) (K.write_faults out.new)) }
{
    let end = line_end(bytes);
    let (front, _) = bytes.split_at(end);
    let line = line.extend(front);
    if end == bytes.len() {
        return Ok((line, end));
    }
    answer_line(alloc, earlier, &line, out)?;
    Ok((line.clear(alloc), end + 1))
}

/// Answers the lines that a piece of input ends, and keeps the rest of it pending.
fn feed<K: Sink>(
    alloc: Global,
    earlier: &Earlier,
    line: PendingLine,
    piece: &[u8],
    out: &mut K,
) -> Result<PendingLine, Stop>
    ensures fed { IfOk result (λ after. Tells earlier.now line piece.now after
        (K.written out.old) (K.written out.new)) }
    ensures part { OnErr result ((before : List ℕ) → Holds line before →
        ToldInPart earlier.now (lines_from before piece.now) (K.written out.old)
        (K.written out.new)) }
    ensures count { K.write_faults out.old ≤ K.write_faults out.new }
    ensures output { IfErr result (λ e. (e ≡ Stop.Output)
        × Rose (K.write_faults out.old) (K.write_faults out.new)) }
{
    let mut line = line;
    let mut at = 0;
    while at < piece.len() {
        let (_, rest) = piece.split_at(at);
        let count;
        (line, count) = feed_line(alloc, earlier, line, rest, out)?;
        at += count;
    }
    Ok(line)
}

/// Answers the last line, which no LF ends, and flushes.
fn finish<K: Sink>(
    alloc: Global,
    earlier: &Earlier,
    line: &PendingLine,
    out: &mut K,
) -> Result<(), Stop>
    ensures told { OnOk result ((bytes : List ℕ) → Holds line.now bytes →
        Told earlier.now (bytes ∷ []) (K.written out.old) (K.written out.new)) }
    ensures flushed { OnOk result (IsAllFlushed (K.written out.new) (K.flushed out.new)) }
    ensures part { OnErr result ((bytes : List ℕ) → Holds line.now bytes →
        ToldInPart earlier.now (bytes ∷ []) (K.written out.old) (K.written out.new)) }
    ensures count { K.write_faults out.old ≤ K.write_faults out.new }
    ensures output { IfErr result (λ e. (e ≡ Stop.Output)
        × Rose (K.write_faults out.old) (K.write_faults out.new)) }
{
    answer_line(alloc, earlier, line, out)?;
    flush(out)
}

/// Answers all lines of the input by the registry as it was, at most 2^32 bytes of it, and flushes.
/// Where the input fails, or there is more of it, it answers the lines that came whole, and
/// flushes. It stops for these and where the output fails, and not for want of memory, which a
/// reply tells.
pub fn answer_input<S: Source, K: Sink>(
    alloc: Global,
    earlier: &Earlier,
    input: &mut S,
    out: &mut K,
) -> Result<(), Stop>
    ensures told { OnOk result (TellsInput earlier.now (S.left input.old) (S.left input.new)
        (K.written out.old) (K.written out.new)) }
    ensures flushed { OnOk result (IsAllFlushed (K.written out.new) (K.flushed out.new)) }
    ensures stopped { IfErr result (λ why. StopsTelling earlier.now (S.left input.old)
        (S.left input.new) (K.written out.old) (K.written out.new) (K.flushed out.new) why) }
    ensures input { IfErr result (λ why. why ≡ Stop.Input
        → Rose (S.read_faults input.old) (S.read_faults input.new)) }
    ensures output { IfErr result (λ why. why ≡ Stop.Output
        → Rose (K.write_faults out.old) (K.write_faults out.new)) }
{
    let mut line = PendingLine::start(alloc);
    let mut buf = [0u8; PIECE];
    let mut taken: u64 = 0;
    while taken < LIMIT {
        let count = match read_some(input, &mut buf, taken) {
            Ok(count) => count,
            Err(stop) => {
                drop(line);
                return Err(stop_flushed(out, stop));
            }
        };
        if count == 0 {
            let last = finish(alloc, earlier, &line, out);
            drop(line);
            return last;
        }
        line = feed(alloc, earlier, line, &buf[..count], out)?;
        taken += count as u64;
    }
    drop(line);
    Err(stop_flushed(out, Stop::TooMuch))
}
