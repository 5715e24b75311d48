// A job, run over the input as its table.
ghost use Rattle.std.specs.Prelude.{◌≡◌, ◌≤◌, ◌<◌, ◌+◌, ℕ, List, Result, Err, length, take, codes};
ghost use Rattle.std.specs.Prelude.{option_map, true, IfOk, OnErr};
ghost use Rattle.std.specs.Io.KnownBytes.{IsAtEnd, prepend_known};
ghost use Rattle.reg_outside.specs.Faults.{Rose};
ghost use Rattle.reg_outside.specs.Marks.{marked};
ghost use Rattle.reg_outside.specs.Streams.{later_moments};
ghost use Rattle.reg_terms.specs.Limits.{max_line};
ghost use Rattle.reg_terms.specs.declared.refusal.Refusal.{Refusal};
ghost use Rattle.reg_terms.specs.declared.request.Request.{Request};
ghost use Rattle.reg_service.specs.Kept.{Halted, keeper_of};
ghost use Rattle.reg_service.specs.Marks.{KeepsUpInPart, LeavesSince, output_of};
ghost use Rattle.reg_session.specs.Pending.{AsksFormed, Holds, ReadsAs};
ghost use Rattle.reg_session.specs.Replies.{IsLine, line_of};
ghost use Rattle.reg_run.specs.Crash.{seen};
ghost use Rattle.reg_run.specs.Ends.{Did};
ghost use Rattle.reg_run.specs.Once.{AsksOnce, LoadsOnce, TakesSome, TakesTable, load_of};
ghost use Rattle.reg_run.specs.Once.{Printed, Put, end_of_reply, is_constant, load_request};
ghost use Rattle.reg_run.specs.World.{Net, out_of, world};

use crate::perform::{open, print_reply};
use crate::status::End;
use reg_base::{Bytes, Text, is_extension};
use reg_keep::Keeper;
use reg_outside::{Clock, Disk, Failed, Sink, Source};
use reg_service::{Next, Service};
use reg_session::{LineReading, PendingLine, turn};
use reg_terms::{MAX_LINE, Op, Refusal, Reply, Request};
use reg_words::Task;
use std::alloc::{AllocError, Global};

/// How many bytes of input are taken at most: one more than a table may have.
const MOST: usize = MAX_LINE + 1;

/// How many bytes are read at a time.
const PIECE: usize = 4096;

/// Reads a piece of input, once so many bytes are taken: as many more as are taken, at most.
fn read_some<S: Source>(input: &mut S, buf: &mut [u8], taken: usize) -> Result<usize, Failed>
    requires fits { PIECE ≤ length buf.old }
    requires some { taken < MOST }
    ensures within { IfOk result (λ n. taken + n ≤ MOST) }
    ensures filled { IfOk result (λ n. n ≤ length buf.new) }
    ensures bytes { IfOk result (λ n. S.left input.old
        ≡ prepend_known (take n buf.new) (S.left input.new)) }
    ensures end { IfOk result (λ n. n ≡ 0 → IsAtEnd (S.left input.new)) }
    ensures count { S.read_faults input.old ≤ S.read_faults input.new }
    ensures failed { OnErr result (Rose (S.read_faults input.old) (S.read_faults input.new)) }
    ensures same { OnErr result (S.left input.new ≡ S.left input.old) }
{
    let room = (MOST - taken).min(PIECE);
    input.read(&mut buf[..room])
}

/// Takes the input as a table: to its end, or to one byte more than a table may have.
fn take_table<S: Source>(alloc: Global, input: &mut S) -> Result<PendingLine, Failed>
    ensures table { IfOk result (λ kept. TakesTable (S.left input.old) (S.left input.new) kept) }
    ensures some { OnErr result (TakesSome (S.left input.old) (S.left input.new)) }
    ensures failed { OnErr result (Rose (S.read_faults input.old) (S.read_faults input.new)) }
{
    let mut kept = PendingLine::start(alloc);
    let mut buf = [0u8; PIECE];
    let mut taken: usize = 0;
    while taken < MOST {
        let count = match read_some(input, &mut buf, taken) {
            Ok(count) => count,
            Err(Failed) => {
                drop(kept);
                return Err(Failed);
            }
        };
        if count == 0 {
            return Ok(kept);
        }
        kept = kept.extend(&buf[..count]);
        taken += count;
    }
    Ok(kept)
}

/// The refusal of a table of too many bytes.
fn too_long() -> LineReading
    ensures reads { (job table : List ℕ) → max_line < length table
        → ReadsAs result (load_of job table) }
    ensures form { AsksFormed result }
{
    LineReading::Refused(Refusal::TooLong {
        limit: MAX_LINE as u64,
    })
}

/// The refusal of a text that is no job's name.
fn bad_job(alloc: Global) -> LineReading
    ensures reads { ReadsAs result (Err (Refusal.BadName (codes "job"))) }
    ensures form { AsksFormed result }
{
    match Text::new(alloc, "job") {
        Ok(field) => LineReading::Refused(Refusal::BadName { field }),
        Err(AllocError) => LineReading::NoMemory,
    }
}

/// A load that GrouperSystem asks.
fn load_request(alloc: Global, job: &Text, table: &[u8]) -> Result<Request, AllocError>
    ensures { IfOk result (λ request. request ≡ load_request job.now table.now) }
{
    let by = Bytes::of(alloc, b"g:isa/GrouperSystem")?;
    let job = job.copy(alloc)?;
    let table = Bytes::of(alloc, table)?;
    Ok(Request {
        by,
        key: None,
        op: Op::Load { job, table },
    })
}

/// What the load of a table asks.
fn load_of_bytes(alloc: Global, job: &Text, table: &[u8]) -> LineReading
    ensures reads { ReadsAs result (load_of job.now table.now) }
    ensures form { AsksFormed result }
{
    if table.len() > MAX_LINE {
        return too_long();
    }
    if !is_extension(job.bytes()) {
        return bad_job(alloc);
    }
    match load_request(alloc, job, table) {
        Ok(request) => LineReading::Asked(request),
        Err(AllocError) => LineReading::NoMemory,
    }
}

/// The same of what was taken.
fn load_of(alloc: Global, job: &Text, taken: &PendingLine) -> LineReading
    ensures reads { (table : List ℕ) → Holds taken.now table
        → ReadsAs result (load_of job.now table) }
    ensures form { AsksFormed result }
{
    match taken {
        PendingLine::Kept(table) => load_of_bytes(alloc, job, table),
        PendingLine::TooLong => too_long(),
        PendingLine::Lost { .. } => LineReading::NoMemory,
    }
}

/// Prints a reply, behind a mark of the moment to which the service came that gave it.
fn print_marked<J: Keeper, K: Sink>(
    alloc: Global,
    reply: &Reply,
    next: &Next<J>,
    out: &mut K,
) -> End
    ensures printed { Printed (end_of_reply reply.now) (line_of reply.now) result
        (out_of ⟦<K as Sink>⟧ out.old) (out_of ⟦<K as Sink>⟧ out.new) }
    ensures sure { is_constant reply.now ≡ true → Put (end_of_reply reply.now) (line_of reply.now)
        result (out_of ⟦<K as Sink>⟧ out.old) (out_of ⟦<K as Sink>⟧ out.new) }
    ensures marks { K.marks out.new ≡ option_map (marked (J.keep_moment (keeper_of next.now))
        (K.written out.old)) (K.marks out.old) }
    ensures leaves { LeavesSince ⟦<J as Keeper>⟧ (J.keep_moment (keeper_of next.now)) next.now }
{
    let stamp = next.stamp();
    out.mark(&stamp);
    print_reply(alloc, reply, out)
}

/// Asks a service what was read, at the clock, prints the reply, and gives the keeper back.
fn ask_once<J: Keeper, K: Sink, C: Clock>(
    alloc: Global,
    service: Service<J>,
    reading: LineReading,
    out: &mut K,
    clock: &mut C,
) -> (End, J)
    requires { AsksFormed reading }
    ensures asked { (told : Result Request Refusal) → ReadsAs reading told
        → (h : Halted ⟦<J as Keeper>⟧ service.state.history service.keeper result.1)
        × AsksOnce service.state (C.moments clock.old) told result.0 h.answered h.after
        (out_of ⟦<K as Sink>⟧ out.old) (out_of ⟦<K as Sink>⟧ out.new)
        × KeepsUpInPart ⟦<J as Keeper>⟧ IsLine service.keeper (output_of ⟦<K as Sink>⟧ out.old)
        (output_of ⟦<K as Sink>⟧ out.new) h.after result.1 }
    ensures disk { result.0 ≡ End.Disk
        → Rose (J.keep_faults service.keeper) (J.keep_faults result.1) }
    ensures clock { C.moments clock.new ≡ option_map later_moments (C.moments clock.old) }
{
    let at = clock.now();
    let (reply, next) = turn(alloc, service, at, reading);
    let end = print_marked(alloc, &reply, &next, out);
    // By a call: dropped in place it would be taken apart by its kinds.
    drop(reply);
    match next {
        Next::Go(service) => (end, service.into_keeper()),
        Next::Stop(_, keeper) => (end, keeper),
    }
}

/// Takes the input as a table, runs a job over it, and gives the keeper back.
fn load<S: Source, J: Keeper, K: Sink, C: Clock>(
    alloc: Global,
    service: Service<J>,
    job: &Text,
    input: &mut S,
    out: &mut K,
    clock: &mut C,
) -> (End, J)
    ensures { (l : LoadsOnce ⟦<J as Keeper>⟧ service.state service.keeper job.now
        (S.left input.old) (S.left input.new) (C.moments clock.old) (C.moments clock.new)
        (out_of ⟦<K as Sink>⟧ out.old) (out_of ⟦<K as Sink>⟧ out.new) (S.read_faults input.old)
        (S.read_faults input.new) result.0 result.1)
        × KeepsUpInPart ⟦<J as Keeper>⟧ IsLine service.keeper (output_of ⟦<K as Sink>⟧ out.old)
        (output_of ⟦<K as Sink>⟧ out.new) l.halted.after result.1 }
{
    service.stays();
    match take_table(alloc, input) {
        Ok(table) => {
            let reading = load_of(alloc, job, &table);
            drop(table);
            ask_once(alloc, service, reading, out, clock)
        }
        Err(Failed) => (End::Input, service.into_keeper()),
    }
}

/// Opens the journal on a disk, takes the input as a table, and runs a job over it.
pub(crate) fn load_over<S: Source, K: Sink, D: Disk, C: Clock>(
    alloc: Global,
    job: &Text,
    input: &mut S,
    out: &mut K,
    disk: D,
    clock: &mut C,
) -> (End, D)
    ensures did { (net : Net) → Did (seen ⟦<D as Disk>⟧ disk result.1) (Task.Load job.now) result.0
        (world ⟦<S as Source>⟧ ⟦<K as Sink>⟧ ⟦<D as Disk>⟧ ⟦<C as Clock>⟧ input.old out.old disk
        clock.old net)
        (world ⟦<S as Source>⟧ ⟦<K as Sink>⟧ ⟦<D as Disk>⟧ ⟦<C as Clock>⟧ input.new out.new result.1
        clock.new net) }
    ensures object { D.name result.1 ≡ D.name disk }
    ensures later { D.faults disk ≤ D.faults result.1 }
{
    match open(alloc, disk) {
        Err((end, disk)) => (end, disk),
        Ok(service) => {
            let (end, keeper) = load(alloc, service, job, input, out, clock);
            (end, keeper.into_disk())
        }
    }
}
