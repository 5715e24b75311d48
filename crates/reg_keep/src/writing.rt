// Writing frames behind a closed gate, which is opened last.
ghost use Rattle.std.specs.Prelude.{◌≡◌, ◌≤◌, ◌<◌, ◌+◌, ◌^◌, ℕ, List, [], ◌∷◌, ◌++◌, length, OnOk};
ghost use Rattle.std.specs.Prelude.{option_map, is_some, IfOk, IfSome};
ghost use Rattle.reg_outside.specs.Disk.{Changes, Leaves, Torn, Only, put};
ghost use Rattle.reg_outside.specs.Faults.{HasCause};
ghost use Rattle.reg_keep.specs.Frames.{frames_of, length_bytes, AreShort, payloads_in, with_all};
ghost use Rattle.reg_keep.specs.Frames.{with_frames};
ghost use Rattle.reg_keep.specs.Settled.{IsSettled, IsBeforeOrAll, OpensWithAll, SameFront};
ghost use Rattle.reg_keep.specs.Settled.{behind_gate};

use crate::gathering::Gathered;
use reg_base::Bytes;
use reg_outside::{Disk, Failed};

#[tactic(auto, unfolding(crate::specs::Frames::length_bytes))]
pub fn four_bytes(n: u32) -> [u8; 4]
    ensures bytes { result ≡ length_bytes n }
    ensures length { length result ≡ 4 }
{
    n.to_le_bytes()
}

// An open gate and a length.
pub fn five_bytes(n: u32) -> [u8; 5]
    ensures bytes { result ≡ 1 ∷ length_bytes n }
    ensures length { length result ≡ 5 }
{
    let [a, b, c, d] = four_bytes(n);
    [1, a, b, c, d]
}

// The frames of these payloads behind a gate, and the place of the last gate, closed. They are
// gathered: one write takes all of them, or each full buffer.
fn write_frames<D: Disk>(
    disk: &mut D,
    gate: u64,
    first: &[u8],
    rest: &[Bytes],
) -> Result<u64, Failed>
    requires place { IfSome (D.contents disk.old) (λ held. gate < length held) }
    requires small { gate < 2 ^ 63 }
    requires short { AreShort (first.now ∷ rest.now) }
    ensures next { IfOk result (λ n. n ≡ gate + length (frames_of (first.now ∷ rest.now))) }
    ensures end { IfOk result (λ n. n + 1 < 2 ^ 63) }
    ensures written { OnOk result (D.contents disk.new
        ≡ option_map (put (gate + 1) (behind_gate first.now rest.now)) (D.contents disk.old)) }
    ensures crash { Changes D.moment D.may_leave D.left_since (SameFront (gate
        + 1)) disk.old disk.new }
    ensures object { D.name disk.new ≡ D.name disk.old }
    ensures told { is_some (D.contents disk.new) ≡ is_some (D.contents disk.old) }
    ensures cause { HasCause (D.faults disk.old) (D.faults disk.new) result }
{
    let mut frames = Gathered::new(gate + 1);
    frames.add_both(disk, &four_bytes(first.len() as u32), first)?;
    let mut left = rest;
    'frames: while let Some((payload, behind)) = left.split_first() {
        let size = payload.bytes().len() as u32;
        frames.add_both(disk, &five_bytes(size), payload.bytes())?;
        left = behind;
    }
    frames.add(disk, &[0])?;
    let end = frames.write_out(disk)?;
    Ok(end - 1)
}

// The same, on the disk.
fn prepare<D: Disk>(disk: &mut D, gate: u64, first: &[u8], rest: &[Bytes]) -> Result<u64, Failed>
    requires place { IfSome (D.contents disk.old) (λ held. gate < length held) }
    requires small { gate < 2 ^ 63 }
    requires short { AreShort (first.now ∷ rest.now) }
    ensures next { IfOk result (λ n. n ≡ gate + length (frames_of (first.now ∷ rest.now))) }
    ensures end { IfOk result (λ n. n + 1 < 2 ^ 63) }
    ensures written { OnOk result (D.contents disk.new
        ≡ option_map (put (gate + 1) (behind_gate first.now rest.now)) (D.contents disk.old)) }
    ensures durable { OnOk result (Only (D.contents disk.new) (D.may_leave disk.new)) }
    ensures crash { Changes D.moment D.may_leave D.left_since (SameFront (gate
        + 1)) disk.old disk.new }
    ensures object { D.name disk.new ≡ D.name disk.old }
    ensures told { is_some (D.contents disk.new) ≡ is_some (D.contents disk.old) }
    ensures cause { HasCause (D.faults disk.old) (D.faults disk.new) result }
{
    let next = write_frames(disk, gate, first, rest)?;
    disk.sync()?;
    Ok(next)
}

// The open gate, on the disk.
pub fn open_gate<D: Disk>(disk: &mut D, gate: u64) -> Result<(), Failed>
    requires place { IfSome (D.contents disk.old) (λ held. gate < length held) }
    ensures written { OnOk result (D.contents disk.new
        ≡ option_map (put gate (1 ∷ [])) (D.contents disk.old)) }
    ensures durable { OnOk result (Only (D.contents disk.new) (D.may_leave disk.new)) }
    ensures crash { Changes D.moment D.may_leave D.left_since (Torn gate 1) disk.old disk.new }
    ensures object { D.name disk.new ≡ D.name disk.old }
    ensures told { is_some (D.contents disk.new) ≡ is_some (D.contents disk.old) }
    ensures cause { HasCause (D.faults disk.old) (D.faults disk.new) result }
{
    disk.write_at(gate, &[1])?;
    disk.sync()
}

// A first frame and the rest of them more, and the place of the last gate. At every moment a crash
// leaves the payloads from before it, with all of these or with none.
pub fn append_frames<D: Disk>(
    disk: &mut D,
    gate: u64,
    first: &[u8],
    rest: &[Bytes],
) -> Result<u64, Failed>
    requires settled { IsSettled gate (D.contents disk.old) (D.may_leave disk.old) }
    requires small { gate < 2 ^ 63 }
    requires short { AreShort (first.now ∷ rest.now) }
    ensures settled { IfOk result (λ n. IsSettled n (D.contents disk.new) (D.may_leave disk.new)) }
    ensures next { IfOk result (λ n. n ≡ gate + length (frames_of (first.now ∷ rest.now))) }
    ensures end { IfOk result (λ n. n + 1 < 2 ^ 63) }
    ensures kept { OnOk result (option_map payloads_in (D.contents disk.new)
        ≡ option_map (λ held. with_all (payloads_in held) (first.now ∷ rest.now))
        (D.contents disk.old)) }
    ensures written { OnOk result (D.contents disk.new
        ≡ option_map (λ file. with_frames file (first.now ∷ rest.now)) (D.contents disk.old)) }
    ensures after { OnOk result
        (OpensWithAll (D.contents disk.old) (first.now ∷ rest.now) (D.may_leave disk.new)) }
    ensures any_moment { Leaves D.moment D.left_since
        (IsBeforeOrAll (D.contents disk.old) (first.now ∷ rest.now)) disk.old disk.new }
    ensures told { is_some (D.contents disk.new) ≡ is_some (D.contents disk.old) }
    ensures object { D.name disk.new ≡ D.name disk.old }
    ensures cause { HasCause (D.faults disk.old) (D.faults disk.new) result }
{
    let next = prepare(disk, gate, first, rest)?;
    open_gate(disk, gate)?;
    Ok(next)
}
