// The top call.
ghost use Rattle.std.specs.Prelude.{◌≡◌, ◌≤◌, false, map, string_bytes};
ghost use Rattle.reg_words.specs.Words.{name_command, task_of};
ghost use Rattle.reg_run.specs.declared.status.End.{End};
ghost use Rattle.reg_run.specs.Ends.{IsUsage, RunDid};
ghost use Rattle.reg_run.specs.Status.{status_of, IsStatus, NotesOnce};
ghost use Rattle.reg_run.specs.World.{net_of, world};

use crate::perform::perform;
use crate::status::{End, status_of, write_note};
use reg_outside::{Clock, Disk, Listener, Sink, Source};
use reg_words::task_of;
use std::alloc::{AllocError, Global};

/// Does what the words ask for.
fn follow<S: Source, K: Sink, D: Disk, E: Disk, C: Clock, L: Listener>(
    alloc: Global,
    words: &[String],
    input: &mut S,
    out: &mut K,
    disk: &mut D,
    second: &mut E,
    clock: &mut C,
    net: &mut L,
) -> End
    ensures did { RunDid ⟦<D as Disk>⟧ ⟦<E as Disk>⟧ (task_of (map string_bytes words.now)) result
        (world ⟦<S as Source>⟧ ⟦<K as Sink>⟧ ⟦<D as Disk>⟧ ⟦<C as Clock>⟧ input.old out.old disk.old
        clock.old (net_of ⟦<L as Listener>⟧ net.old))
        (world ⟦<S as Source>⟧ ⟦<K as Sink>⟧ ⟦<D as Disk>⟧ ⟦<C as Clock>⟧ input.new out.new disk.new
        clock.new (net_of ⟦<L as Listener>⟧ net.new)) disk.old disk.new second.old second.new }
    ensures unknown { name_command (map string_bytes words.now) ≡ false → result ≡ End.Usage }
    ensures later { D.faults disk.old ≤ D.faults disk.new }
    ensures later_second { E.faults second.old ≤ E.faults second.new }
{
    match task_of(alloc, words) {
        Ok(Some(task)) => {
            let (end, _disk) = perform(alloc, &task, input, out, &mut *disk, second, clock, net);
            end
        }
        Ok(None) => End::Usage,
        Err(AllocError) => End::Memory,
    }
}

/// Runs the command that the words name over the disk's journal, and gives the exit status
/// (`docs/REQUESTS.md`, "The program"): `init` begins a journal, `apply` answers each line of the
/// input with a line of output, and with `--together N` up to N lines that were read already by one
/// append, `serve PORT [--connections N]` answers the messages of so many connections, one after
/// another, `check` opens the journal, `commands [--from N] [--to M]` prints its commands, `members
/// NAME [--at T]` and `history NAME` ask it, `as-of T` answers each line of the input by the
/// registry as it was at a moment, `why SUBJECT GROUP [--at T]` says why a person is a member of a
/// group or isn't, now or then, and `provision CONSUMER SUBJECT MAX` prints operations for an
/// outside list and acknowledges them. `migrate` writes the disk's journal, which is then of format
/// 1, anew on the second disk as one of format 2, and no other command touches the second. A status
/// other than 0 has a note on `notes`; that it can't be written changes nothing.
pub fn run<S: Source, K: Sink, N: Sink, D: Disk, E: Disk, C: Clock, L: Listener>(
    alloc: Global,
    words: &[String],
    input: &mut S,
    out: &mut K,
    notes: &mut N,
    disk: &mut D,
    second: &mut E,
    clock: &mut C,
    net: &mut L,
) -> u8
    // One end tells the status, its cause, what was done and what is left of the disks, that what
    // was acknowledged had been on the first before, and the note.
    ensures ends { (end : End) × (result ≡ status_of end)
        × RunDid ⟦<D as Disk>⟧ ⟦<E as Disk>⟧ (task_of (map string_bytes words.now)) end
        (world ⟦<S as Source>⟧ ⟦<K as Sink>⟧ ⟦<D as Disk>⟧ ⟦<C as Clock>⟧ input.old out.old disk.old
        clock.old (net_of ⟦<L as Listener>⟧ net.old))
        (world ⟦<S as Source>⟧ ⟦<K as Sink>⟧ ⟦<D as Disk>⟧ ⟦<C as Clock>⟧ input.new out.new disk.new
        clock.new (net_of ⟦<L as Listener>⟧ net.new)) disk.old disk.new second.old second.new
        × NotesOnce end (N.written notes.old) (N.write_faults notes.old) (N.written notes.new)
        (N.write_faults notes.new) }
    ensures statuses { IsStatus result }
    ensures usage { IsUsage (task_of (map string_bytes words.now)) result }

    // Whatever memory there is: words that name no command take none.
    ensures unknown { name_command (map string_bytes words.now) ≡ false → result ≡ 2 }

    ensures later { D.faults disk.old ≤ D.faults disk.new }
    ensures later_second { E.faults second.old ≤ E.faults second.new }
{
    let end = follow(
        alloc,
        words,
        input,
        out,
        &mut *disk,
        &mut *second,
        clock,
        net,
    );
    write_note(notes, end);
    status_of(end)
}
