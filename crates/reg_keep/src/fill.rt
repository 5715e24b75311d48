// Filling a journal with payloads at once: the frames stand behind a closed gate at place 8, which
// is opened last.
ghost use Rattle.std.specs.Prelude.{◌≡◌, ◌≤◌, ◌<◌, ◌+◌, ◌^◌, ◌||◌, ◌&&◌, not, nat_lt, ℕ, List, []};
ghost use Rattle.std.specs.Prelude.{◌∷◌, ◌++◌, length, max, true, false, is_some, option_map, Ok};
ghost use Rattle.std.specs.Prelude.{IfOk, IfSome, OnOk, IsErrOf};
ghost use Rattle.reg_outside.specs.Disk.{Changes, Leaves, Same, Only, put};
ghost use Rattle.reg_outside.specs.Faults.{Rose, HasCause};
ghost use Rattle.reg_keep.specs.Frames.{frames_of, AreShort, payloads_in, payloads_of_records};
ghost use Rattle.reg_keep.specs.Frames.{begins_old};
ghost use Rattle.reg_keep.specs.Settled.{SameFront, behind_gate};
ghost use Rattle.reg_keep.specs.Begin.{Begun, IsPartly, WasOrPartly, begins_closed, is_unfit};
ghost use Rattle.reg_keep.specs.Begin.{fronted, filled_with};
ghost use Rattle.reg_keep.specs.Keeping.{IsGoing};

use crate::Records;
use crate::begin::{InitFault, NEW};
use crate::gathering::Gathered;
use crate::open::{HEADER, OLD_HEADER, is_open};
use crate::read::read_full;
use crate::writing::{five_bytes, four_bytes, open_gate};
use reg_outside::{Disk, Failed};

fn begins_closed(front: &[u8]) -> bool
    ensures { result ≡ begins_closed front.now }
{
    if front.len() < 9 || !front.starts_with(&HEADER) {
        return false;
    }
    !is_open(front[8])
}

// Of the first nine bytes of a file of this size, or all: whether the header and a closed gate
// stand there, or the file is unfit.
fn judge(front: &[u8], size: u64) -> Result<bool, InitFault>
    ensures closed { IfOk result (λ b. b ≡ begins_closed front.now) }
    ensures fit { OnOk result
        ((begins_old front.now || (nat_lt 9 size && not (begins_closed front.now))) ≡ false) }
    ensures exists { IsErrOf result InitFault.Exists
        → (begins_old front.now || (nat_lt 9 size && not (begins_closed front.now))) ≡ true }
    ensures fault { IsErrOf result InitFault.Fault → ⊥ }
{
    if front.starts_with(&OLD_HEADER) {
        return Err(InitFault::Exists);
    }
    let closed = begins_closed(front);
    if size > 9 && !closed {
        return Err(InitFault::Exists);
    }
    Ok(closed)
}

// Of a file of this size that may be filled: whether the header and a closed gate stand in front.
fn stands<D: Disk>(disk: &mut D, size: u64) -> Result<bool, InitFault>
    requires size { IfSome (D.contents disk.old) (λ file. size ≡ length file) }
    ensures closed { IfOk result (λ b. IfSome (D.contents disk.old) (λ file. b
        ≡ begins_closed file)) }
    ensures fit { OnOk result (IfSome (D.contents disk.old) (λ file. is_unfit file ≡ false)) }
    ensures exists { IsErrOf result InitFault.Exists
        → IfSome (D.contents disk.old) (λ file. is_unfit file ≡ true) }
    ensures fault { IsErrOf result InitFault.Fault → Rose (D.faults disk.old) (D.faults disk.new) }
    ensures later { D.faults disk.old ≤ D.faults disk.new }
    ensures still { OnOk result (D.faults disk.new ≡ D.faults disk.old) }
    ensures still_exists { IsErrOf result InitFault.Exists
        → D.faults disk.new ≡ D.faults disk.old }
    ensures same { D.contents disk.new ≡ D.contents disk.old }
    ensures crash { Changes D.moment D.may_leave D.left_since Same disk.old disk.new }
    ensures object { D.name disk.new ≡ D.name disk.old }
{
    let mut file = [0u8; 9];
    let count = read_full(disk, &mut file)?;
    let (front, _) = file.as_slice().split_at(count);
    judge(front, size)
}

// Whether the header and a closed gate stand in front, and the size, of a disk that is synced
// first.
fn look_front<D: Disk>(disk: &mut D) -> Result<(bool, u64), InitFault>
    ensures closed { IfOk result (λ r. IfSome (D.contents disk.old) (λ file. r.0
        ≡ begins_closed file)) }
    ensures long { IfOk result (λ r. IfSome (D.contents disk.old) (λ file. r.1 ≡ length file)) }
    ensures durable { OnOk result (Only (D.contents disk.new) (D.may_leave disk.new)) }
    ensures fit { OnOk result (IfSome (D.contents disk.old) (λ file. is_unfit file ≡ false)) }
    ensures exists { IsErrOf result InitFault.Exists
        → IfSome (D.contents disk.old) (λ file. is_unfit file ≡ true) }
    ensures fault { IsErrOf result InitFault.Fault → Rose (D.faults disk.old) (D.faults disk.new) }
    ensures later { D.faults disk.old ≤ D.faults disk.new }
    ensures still { OnOk result (D.faults disk.new ≡ D.faults disk.old) }
    ensures still_exists { IsErrOf result InitFault.Exists
        → D.faults disk.new ≡ D.faults disk.old }
    ensures same { D.contents disk.new ≡ D.contents disk.old }
    ensures crash { Changes D.moment D.may_leave D.left_since Same disk.old disk.new }
    ensures object { D.name disk.new ≡ D.name disk.old }
{
    disk.sync()?;
    let size = disk.len()?;
    let is_closed = stands(disk, size)?;
    Ok((is_closed, size))
}

// The header and a closed gate, on the disk, and how long the file is with them.
fn begin_closed<D: Disk>(disk: &mut D) -> Result<u64, InitFault>
    ensures long { IfOk result (λ n. IfSome (D.contents disk.new) (λ file. n ≡ length file)) }
    ensures ready { OnOk result
        (IfSome (D.contents disk.new) (λ file. begins_closed file ≡ true)) }
    ensures durable { OnOk result (Only (D.contents disk.new) (D.may_leave disk.new)) }
    ensures written { OnOk result (D.contents disk.new ≡ option_map fronted (D.contents disk.old)) }
    ensures told { OnOk result (is_some (D.contents disk.new) ≡ is_some (D.contents disk.old)) }
    ensures fit { OnOk result (IfSome (D.contents disk.old) (λ file. is_unfit file ≡ false)) }
    ensures exists { IsErrOf result InitFault.Exists
        → IfSome (D.contents disk.old) (λ file. is_unfit file ≡ true) }
    ensures fault { IsErrOf result InitFault.Fault → Rose (D.faults disk.old) (D.faults disk.new) }
    ensures later { D.faults disk.old ≤ D.faults disk.new }
    ensures still { OnOk result (D.faults disk.new ≡ D.faults disk.old) }
    ensures still_exists { IsErrOf result InitFault.Exists
        → D.faults disk.new ≡ D.faults disk.old }
    ensures crash { Changes D.moment D.may_leave D.left_since Begun disk.old disk.new }
    ensures untouched { IfSome (D.contents disk.old) (λ bytes. is_unfit bytes ≡ true
        → Changes D.moment D.may_leave D.left_since Same disk.old disk.new) }
    ensures same { IfSome (D.contents disk.old) (λ bytes. is_unfit bytes ≡ true
        → D.contents disk.new ≡ D.contents disk.old) }
    ensures object { D.name disk.new ≡ D.name disk.old }
{
    let (is_closed, size) = look_front(disk)?;
    if is_closed {
        return Ok(size);
    }
    disk.write_at(0, &NEW)?;
    disk.sync()?;
    Ok(9)
}

// The frames of these payloads behind the gate at place 8, and the place of the last gate, closed.
// They are gathered, and each full buffer takes one write.
fn write_records<D: Disk>(disk: &mut D, first: &[u8], mut rest: Records) -> Result<u64, Failed>
    requires place { IfSome (D.contents disk.old) (λ held. 8 < length held) }
    requires short { AreShort (first.now ∷ payloads_of_records rest) }
    ensures next { IfOk result (λ n. n
        ≡ 8 + length (frames_of (first.now ∷ payloads_of_records rest))) }
    ensures end { IfOk result (λ n. n + 1 < 2 ^ 63) }
    ensures written { OnOk result (D.contents disk.new
        ≡ option_map (put 9 (behind_gate first.now (payloads_of_records rest)))
        (D.contents disk.old)) }
    ensures crash { Changes D.moment D.may_leave D.left_since (SameFront 9) disk.old disk.new }
    ensures object { D.name disk.new ≡ D.name disk.old }
    ensures told { is_some (D.contents disk.new) ≡ is_some (D.contents disk.old) }
    ensures cause { HasCause (D.faults disk.old) (D.faults disk.new) result }
{
    let mut frames = Gathered::new(9);
    frames.add_both(disk, &four_bytes(first.len() as u32), first)?;
    'frames: while let Some((_, payload)) = rest.take_first() {
        let size = payload.bytes().len() as u32;
        frames.add_both(disk, &five_bytes(size), payload.bytes())?;
    }
    frames.add(disk, &[0])?;
    let end = frames.write_out(disk)?;
    Ok(end - 1)
}

// The same, on the disk.
fn stage_records<D: Disk>(disk: &mut D, first: &[u8], rest: Records) -> Result<u64, Failed>
    requires place { IfSome (D.contents disk.old) (λ held. 8 < length held) }
    requires short { AreShort (first.now ∷ payloads_of_records rest) }
    ensures next { IfOk result (λ n. n
        ≡ 8 + length (frames_of (first.now ∷ payloads_of_records rest))) }
    ensures end { IfOk result (λ n. n + 1 < 2 ^ 63) }
    ensures written { OnOk result (D.contents disk.new
        ≡ option_map (put 9 (behind_gate first.now (payloads_of_records rest)))
        (D.contents disk.old)) }
    ensures durable { OnOk result (Only (D.contents disk.new) (D.may_leave disk.new)) }
    ensures crash { Changes D.moment D.may_leave D.left_since (SameFront 9) disk.old disk.new }
    ensures object { D.name disk.new ≡ D.name disk.old }
    ensures told { is_some (D.contents disk.new) ≡ is_some (D.contents disk.old) }
    ensures cause { HasCause (D.faults disk.old) (D.faults disk.new) result }
{
    let gate = write_records(disk, first, rest)?;
    disk.sync()?;
    Ok(gate)
}

// The frames behind the gate at place 8, on the disk, and then that gate is opened. The place of
// the last gate.
fn put_records<D: Disk>(disk: &mut D, size: u64, first: &[u8], rest: Records) -> Result<u64, Failed>
    requires long { IfSome (D.contents disk.old) (λ file. size ≡ length file) }
    requires ready { IfSome (D.contents disk.old) (λ file. begins_closed file ≡ true) }
    requires durable { Only (D.contents disk.old) (D.may_leave disk.old) }
    requires short { AreShort (first.now ∷ payloads_of_records rest) }
    ensures going { IfOk result (λ n. IsGoing n (max size (n + 1)) (D.contents disk.new)
        (D.may_leave disk.new)) }
    ensures end { IfOk result (λ n. n + 1 < 2 ^ 63) }
    ensures opens { OnOk result (IfSome (D.contents disk.new) (λ file. payloads_in file
        ≡ Ok (first.now ∷ payloads_of_records rest))) }
    ensures written { OnOk result (D.contents disk.new
        ≡ option_map (put 8 (1 ∷ behind_gate first.now (payloads_of_records rest)))
        (D.contents disk.old)) }
    ensures images { Leaves D.moment D.left_since
        (IsPartly (first.now ∷ payloads_of_records rest)) disk.old disk.new }
    ensures told { is_some (D.contents disk.new) ≡ is_some (D.contents disk.old) }
    ensures object { D.name disk.new ≡ D.name disk.old }
    ensures cause { HasCause (D.faults disk.old) (D.faults disk.new) result }
{
    let gate = stage_records(disk, first, rest)?;
    open_gate(disk, 8)?;
    Ok(gate)
}

/// What filling a journal writes: the place of its last gate, and how long the file is.
pub fn fill_disk<D: Disk>(disk: &mut D, mut payloads: Records) -> Result<(u64, u64), InitFault>
    requires short { AreShort (payloads_of_records payloads) }
    ensures going { IfOk result
        (λ r. IsGoing r.0 r.1 (D.contents disk.new) (D.may_leave disk.new)) }
    ensures opens { OnOk result (IfSome (D.contents disk.new) (λ file. payloads_in file
        ≡ Ok (payloads_of_records payloads))) }
    ensures written { OnOk result (D.contents disk.new
        ≡ option_map (filled_with (payloads_of_records payloads)) (D.contents disk.old)) }
    ensures told { OnOk result (is_some (D.contents disk.new) ≡ is_some (D.contents disk.old)) }
    ensures fit { OnOk result (IfSome (D.contents disk.old) (λ file. is_unfit file ≡ false)) }
    ensures exists { IsErrOf result InitFault.Exists
        → IfSome (D.contents disk.old) (λ file. is_unfit file ≡ true) }
    ensures fault { IsErrOf result InitFault.Fault → Rose (D.faults disk.old) (D.faults disk.new) }
    ensures later { D.faults disk.old ≤ D.faults disk.new }
    ensures still { OnOk result (D.faults disk.new ≡ D.faults disk.old) }
    ensures still_exists { IsErrOf result InitFault.Exists
        → D.faults disk.new ≡ D.faults disk.old }

    // A crash at any moment leaves what it might have left before, or a file that is damaged, or
    // opens to no payloads or to these.
    ensures images { Leaves D.moment D.left_since
        (WasOrPartly (D.may_leave disk.old) (payloads_of_records payloads)) disk.old disk.new }

    // Over a file that is unfit nothing is written.
    ensures untouched { IfSome (D.contents disk.old) (λ bytes. is_unfit bytes ≡ true
        → Changes D.moment D.may_leave D.left_since Same disk.old disk.new) }
    ensures same { IfSome (D.contents disk.old) (λ bytes. is_unfit bytes ≡ true
        → D.contents disk.new ≡ D.contents disk.old) }
    ensures object { D.name disk.new ≡ D.name disk.old }
{
    let size = begin_closed(disk)?;
    let Some((_, first)) = payloads.take_first() else {
        return Ok((8, size));
    };
    let gate = put_records(disk, size, first.bytes(), payloads)?;
    Ok((gate, size.max(gate + 1)))
}
