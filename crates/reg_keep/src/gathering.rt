// Gathering pieces for a place of a disk, so that many of them take one write.
ghost use Rattle.std.specs.Prelude.{◌≡◌, ◌≤◌, ◌<◌, ◌+◌, ◌^◌, ◌++◌, ℕ, List, [], length, true, false};
ghost use Rattle.std.specs.Prelude.{is_some, nat_le, option_map, OnOk, IfOk};
ghost use Rattle.reg_outside.specs.Disk.{Changes, put};
ghost use Rattle.reg_outside.specs.Faults.{HasCause};
ghost use Rattle.reg_keep.specs.Settled.{SameFront};
ghost use Rattle.reg_keep.specs.Waiting.{Adds, IsWithin, end_of, with_waiting};

use reg_outside::{Disk, Failed};
use std::marker::Model;

// How many bytes may wait: those of some eighty commands. Each append begins with as many zeros,
// which cost a tenth of a write.
const ROOM: usize = 16_384;

// Bytes that wait for a place of a disk. Contracts see the place and the bytes.
#[derive(Drop)]
pub struct Gathered {
    buffer: [u8; ROOM],
    len: usize,
    at: u64,
}

impl Model for Gathered {
    ghost use Rattle.std.specs.Prelude.{◌≤◌, ℕ, List, take};

    ghost Value = { ℕ × List ℕ };

    ghost view = { λ g. (g.at, take g.len g.buffer) };

    ghost invariant = { λ g. g.len ≤ 16384 };
}

impl Gathered {
    // None yet, for this place.
    pub fn new(at: u64) -> Gathered
        ensures { result ≡ (at, []) }
    {
        Gathered {
            buffer: [0u8; ROOM],
            len: 0,
            at,
        }
    }

    // Puts a piece behind those that wait where there is room for it. Whether there is.
    fn join(&mut self, piece: &[u8]) -> bool
        ensures joined { result ≡ true → self.new ≡ (self.old.0, self.old.1 ++ piece.now) }
        ensures full { result ≡ false → self.new ≡ self.old }
        ensures room { result ≡ nat_le (length self.old.1 + length piece.now) 16384 }
    {
        if piece.len() > ROOM - self.len {
            return false;
        }
        let end = self.len + piece.len();
        self.buffer[self.len..end].copy_from_slice(piece);
        self.len = end;
        true
    }

    // Writes those that wait. The place behind them, for which none waits yet.
    pub fn write_out<D: Disk>(&mut self, disk: &mut D) -> Result<u64, Failed>
        requires within { IsWithin self.old (D.contents disk.old) }
        ensures next { IfOk result (λ n. n ≡ end_of self.old) }
        ensures small { IfOk result (λ n. n < 2 ^ 63) }
        ensures none { OnOk result (self.new ≡ (end_of self.old, [])) }
        ensures written { OnOk result (D.contents disk.new
            ≡ with_waiting self.old (D.contents disk.old)) }
        ensures crash { Changes D.moment D.may_leave D.left_since
            (SameFront self.old.0) disk.old disk.new }
        ensures object { D.name disk.new ≡ D.name disk.old }
        ensures told { is_some (D.contents disk.new) ≡ is_some (D.contents disk.old) }
        ensures cause { HasCause (D.faults disk.old) (D.faults disk.new) result }
    {
        disk.write_at(self.at, &self.buffer[..self.len])?;
        self.at += self.len as u64;
        self.len = 0;
        Ok(self.at)
    }

    // Writes a piece by itself, where none waits.
    fn write_alone<D: Disk>(&mut self, disk: &mut D, piece: &[u8]) -> Result<(), Failed>
        requires within { IsWithin self.old (D.contents disk.old) }
        requires none { self.old.1 ≡ [] }
        ensures next { OnOk result (self.new ≡ (self.old.0 + length piece.now, [])) }
        ensures written { OnOk result (D.contents disk.new
            ≡ option_map (put self.old.0 piece.now) (D.contents disk.old)) }
        ensures crash { Changes D.moment D.may_leave D.left_since
            (SameFront self.old.0) disk.old disk.new }
        ensures object { D.name disk.new ≡ D.name disk.old }
        ensures told { is_some (D.contents disk.new) ≡ is_some (D.contents disk.old) }
        ensures cause { HasCause (D.faults disk.old) (D.faults disk.new) result }
    {
        disk.write_at(self.at, piece)?;
        self.at += piece.len() as u64;
        Ok(())
    }

    // Puts a piece behind those that wait. Where there is no room for it they are written first,
    // and then a piece that is larger than the buffer too.
    pub fn add<D: Disk>(&mut self, disk: &mut D, piece: &[u8]) -> Result<(), Failed>
        requires within { IsWithin self.old (D.contents disk.old) }
        ensures added { OnOk result
            (Adds piece.now self.old (D.contents disk.old) self.new (D.contents disk.new)) }
        ensures crash { Changes D.moment D.may_leave D.left_since
            (SameFront self.old.0) disk.old disk.new }
        ensures object { D.name disk.new ≡ D.name disk.old }
        ensures told { is_some (D.contents disk.new) ≡ is_some (D.contents disk.old) }
        ensures cause { HasCause (D.faults disk.old) (D.faults disk.new) result }
    {
        if self.join(piece) {
            return Ok(());
        }
        self.write_out(disk)?;
        if self.join(piece) {
            return Ok(());
        }
        self.write_alone(disk, piece)?;
        Ok(())
    }

    // Two pieces, one behind the other.
    pub fn add_both<D: Disk>(&mut self, disk: &mut D, one: &[u8], two: &[u8]) -> Result<(), Failed>
        requires within { IsWithin self.old (D.contents disk.old) }
        ensures added { OnOk result
            (Adds (one.now ++ two.now) self.old (D.contents disk.old) self.new
            (D.contents disk.new)) }
        ensures crash { Changes D.moment D.may_leave D.left_since
            (SameFront self.old.0) disk.old disk.new }
        ensures object { D.name disk.new ≡ D.name disk.old }
        ensures told { is_some (D.contents disk.new) ≡ is_some (D.contents disk.old) }
        ensures cause { HasCause (D.faults disk.old) (D.faults disk.new) result }
    {
        self.add(disk, one)?;
        self.add(disk, two)
    }
}
