// The lines of a journal's commands, printed.
ghost use Rattle.std.specs.Prelude.{◌≡◌, ◌⊎◌, ◌≤◌, ◌<◌, ◌∷◌, [], ℕ, List, Option, Some, None, Ok};
ghost use Rattle.std.specs.Prelude.{Err, IfErr, IfNone, IfSome, OnErr, OnOk};
ghost use Rattle.reg_outside.specs.Disk.{Changes, Same};
ghost use Rattle.reg_outside.specs.Faults.{HasCause};
ghost use Rattle.reg_outside.specs.Streams.{WritesFront};
ghost use Rattle.reg_terms.specs.declared.command.Stamped.{Stamped};
ghost use Rattle.reg_wire.specs.Payload.{stamped_of};
ghost use Rattle.reg_machine.specs.History.{State};
ghost use Rattle.reg_export.specs.Listing.{with_command};
ghost use Rattle.reg_run.specs.Crash.{OpensTo, seen};
ghost use Rattle.reg_run.specs.Ends.{Did};
ghost use Rattle.reg_run.specs.Listing.{AreRead, HandsOn, Lists, PrintsLines, counted_lines};
ghost use Rattle.reg_run.specs.Listing.{due_lines};
ghost use Rattle.reg_run.specs.World.{World, holding, out_of, printing};
ghost use Rattle.reg_run.specs.declared.status.End.TheVariants.{Damaged, Memory};

use crate::perform::{close, end_of_open, open, print_line};
use crate::status::End;
use reg_base::Bytes;
use reg_export::Listing;
use reg_keep::{Journal, Records};
use reg_outside::{Disk, Failed, Sink, write_whole};
use reg_wire::decode;
use reg_words::{Places, Task};
use std::alloc::{AllocError, Global};

/// From so many bytes on gathered lines are written.
const PIECE: usize = 65_536;

/// The next record, unless the listing is over.
fn next_record(records: &mut Records, listing: &Listing) -> Option<(u64, Bytes)>
    ensures next { IfSome result (λ r. records.old ≡ (r.0, r.1) ∷ records.new) }
    ensures number { IfSome result (λ r. listing.now.number < listing.now.to) }
    ensures none { IfNone result ((records.old ≡ []) ⊎ (listing.now.to ≤ listing.now.number)) }
{
    if listing.is_over() {
        return None;
    }
    records.take_first()
}

/// Goes over the command that the payload of a record at a place is read as. Where it is no
/// command's, that place is damaged.
fn add_command(alloc: Global, listing: &mut Listing, at: u64, payload: &[u8]) -> Result<(), End>
    requires { listing.old.number < listing.old.to }
    ensures added { OnOk result ((s : Stamped) → stamped_of payload.now ≡ Some s
        → listing.new ≡ with_command listing.old at s) }
    ensures refused { IfErr result (λ e. (e ≡ Memory)
        ⊎ ((e ≡ Damaged at) × (stamped_of payload.now ≡ None))) }
{
    match decode(alloc, payload) {
        Ok(Some(stamped)) => {
            let added = listing.add(alloc, at, &stamped);
            // By a call: dropped in place it would be taken apart by its kinds.
            drop(stamped);
            match added {
                Ok(()) => Ok(()),
                Err(AllocError) => Err(End::Memory),
            }
        }
        Ok(None) => Err(End::Damaged(at)),
        Err(AllocError) => Err(End::Memory),
    }
}

/// Writes the lines that are gathered, once they are enough.
fn hand_on<K: Sink>(listing: &mut Listing, out: &mut K) -> Result<(), Failed>
    ensures written { OnOk result (HandsOn (K.written out.old) listing.old (K.written out.new)
        listing.new) }
    ensures front { OnErr result (WritesFront (K.written out.old) (K.written out.new)
        listing.old.lines) }
    ensures flushed { K.flushed out.new ≡ K.flushed out.old }
    ensures cause { HasCause (K.write_faults out.old) (K.write_faults out.new) result }
{
    if listing.lines().len() < PIECE {
        return Ok(());
    }
    write_whole(out, listing.lines())?;
    listing.clear();
    Ok(())
}

/// Prints the lines of the commands of these records.
fn print_records<K: Sink>(alloc: Global, places: &Places, records: Records, out: &mut K) -> End
    ensures { (held : Option (List ℕ)) (history : List Stamped)
        → IfSome held (λ file. AreRead records history)
        → Lists (counted_lines places.now held records history) result
        (out_of ⟦<K as Sink>⟧ out.old) (out_of ⟦<K as Sink>⟧ out.new) }
{
    let mut records = records;
    let mut listing = Listing::new(alloc, places.from, places.to);
    'commands: while let Some((at, payload)) = next_record(&mut records, &listing) {
        if let Err(end) = add_command(alloc, &mut listing, at, payload.bytes()) {
            return end;
        }
        if let Err(Failed) = hand_on(&mut listing, out) {
            return End::Output;
        }
    }
    print_line(out, listing.lines(), End::Done)
}

/// Reads a journal once more, and prints the lines of its commands.
fn print_again<K: Sink, D: Disk>(alloc: Global, places: &Places, out: &mut K, disk: D) -> (End, D)
    ensures printed { (from : State) → OpensTo (D.contents disk) (Ok from)
        → PrintsLines (due_lines places.now (D.contents disk) from.history) result.0
        (D.faults disk) (D.faults result.1) (out_of ⟦<K as Sink>⟧ out.old)
        (out_of ⟦<K as Sink>⟧ out.new) }
    ensures same { D.contents result.1 ≡ D.contents disk }
    ensures crash { Changes D.moment D.may_leave D.left_since Same disk result.1 }
    ensures object { D.name result.1 ≡ D.name disk }
    ensures later { D.faults disk ≤ D.faults result.1 }
{
    match Journal::reopen(alloc, disk) {
        Ok((journal, records)) => {
            let end = print_records(alloc, places, records, out);
            (end, journal.into_disk())
        }
        Err((fault, disk)) => (end_of_open(fault), disk),
    }
}

/// Opens the journal on a disk as `check` does, and then prints the lines of its commands of these
/// numbers. The machine that opening made is let go before the file is read again.
pub(crate) fn commands_over<K: Sink, D: Disk>(
    alloc: Global,
    places: &Places,
    out: &mut K,
    disk: D,
) -> (End, D)
    ensures did { (w : World)
        → Did (seen ⟦<D as Disk>⟧ disk result.1) (Task.Commands places.now) result.0
        (holding ⟦<D as Disk>⟧ (printing ⟦<K as Sink>⟧ w out.old) disk)
        (holding ⟦<D as Disk>⟧ (printing ⟦<K as Sink>⟧ w out.new) result.1) }
    ensures object { D.name result.1 ≡ D.name disk }
    ensures later { D.faults disk ≤ D.faults result.1 }
{
    match open(alloc, disk) {
        Err((end, disk)) => (end, disk),
        Ok(service) => {
            service.stays();
            print_again(alloc, places, out, close(service))
        }
    }
}
