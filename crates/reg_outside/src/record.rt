// The bytes of a disk in memory, with a record of what was done to them.
ghost use Rattle.std.specs.Prelude.{◌≡◌, ◌≤◌, ◌<◌, ◌⊎◌, List, [], ◌∷◌, length, vec_len, true};
ghost use Rattle.std.specs.Prelude.{vec_capacity, IfOk, OnOk, OnErr};
ghost use Rattle.reg_outside.specs.Disk.{put, Exactly, Same, Torn};
ghost use Rattle.reg_outside.specs.DiskSteps.{replay, is_valid, is_inside, bytes_after, kept_from};
ghost use Rattle.reg_outside.specs.DiskSteps.{crashed, Grew, MayLeave};
ghost use Rattle.reg_outside.specs.declared.record.Step.{Step};

use std::alloc::{AllocError, Global};

/// What was done.
#[derive(Drop)]
pub enum Step {
    Write { at: usize, bytes: Vec<u8> },
    Cut { at: usize, len: usize },
    Sync,
}

#[derive(Drop)]
pub struct Record {
    pub alloc: Global,
    pub first: Vec<u8>,
    pub bytes: Vec<u8>,
    pub steps: Vec<Step>,
    ghost replayed: { replay first.items steps.items ≡ bytes.items },
    ghost valid: { is_valid first.items steps.items ≡ true },
}

impl Record {
    pub fn new(alloc: Global, bytes: Vec<u8>) -> Result<Record, AllocError>
        ensures same { IfOk result (λ d. (d.bytes.items ≡ bytes.items)
            × (d.first.items ≡ bytes.items) × (d.steps.items ≡ [])) }
        ensures room { IfOk result (λ d. vec_len d.steps < vec_capacity d.steps) }
    {
        let first = bytes.to_vec(alloc)?;
        let steps = Vec::with_capacity(alloc, 1)?;
        Ok(Record {
            alloc,
            first,
            bytes,
            steps,
        })
    }

    /// Writes over what is there, and past the end. A place is left for one step more.
    pub fn write(&mut self, at: usize, piece: &[u8]) -> Result<(), AllocError>
        requires { at ≤ length self.old.bytes.items }
        ensures ok { OnOk result (self.new.bytes.items ≡ put at piece.now self.old.bytes.items) }
        ensures err { OnErr result (self.new.bytes.items ≡ self.old.bytes.items) }
        ensures kept { OnErr result ((self.new.first.items ≡ self.old.first.items)
            × (self.new.steps.items ≡ self.old.steps.items)) }
        ensures room { OnErr result ((vec_capacity self.old.steps ≤ vec_capacity self.new.steps)
            × (vec_len self.new.steps ≡ vec_len self.old.steps)) }
        ensures ahead { OnOk result (vec_len self.new.steps < vec_capacity self.new.steps) }
        ensures crash { Grew (Torn at (length piece.now)) self.old.first.items self.old.steps.items
            self.new.first.items self.new.steps.items }
        ensures exact { OnOk result
            (Exactly (Torn at (length piece.now))
            (MayLeave self.old.first.items self.old.steps.items)
            (MayLeave self.new.first.items self.new.steps.items)) }
    {
        let bytes = piece.to_vec(self.alloc)?;
        self.steps.reserve(2)?;
        write_over(&mut self.bytes, at, piece)?;
        self.steps.push_reserved(Step::Write { at, bytes });
        Ok(())
    }

    /// A write that failed: the bytes stay. Nothing is recorded where there is no place for it.
    /// Where there is memory, a place is left for one step more.
    pub fn cut(&mut self, at: usize, len: usize)
        ensures same { self.new.bytes.items ≡ self.old.bytes.items }
        ensures crash { Grew (Torn at len) self.old.first.items self.old.steps.items
            self.new.first.items self.new.steps.items }
        ensures exact { Exactly (Torn at len) (MayLeave self.old.first.items self.old.steps.items)
            (MayLeave self.new.first.items self.new.steps.items)
            ⊎ (vec_capacity self.old.steps ≤ vec_len self.old.steps) }
    {
        let _ = self.steps.push(Step::Cut { at, len });
        let _ = self.steps.reserve(1);
    }

    /// Where it fails nothing has changed. Else a place is left for one step more.
    pub fn sync(&mut self) -> Result<(), AllocError>
        ensures same { self.new.bytes.items ≡ self.old.bytes.items }
        ensures durable { OnOk result ((c : _)
            → MayLeave self.new.first.items self.new.steps.items c → c ≡ self.new.bytes.items) }
        ensures crash { Grew Same self.old.first.items self.old.steps.items self.new.first.items
            self.new.steps.items }
        ensures kept { OnErr result ((self.new.first.items ≡ self.old.first.items)
            × (self.new.steps.items ≡ self.old.steps.items)) }
        ensures room { OnErr result ((vec_capacity self.new.steps ≡ vec_capacity self.old.steps)
            × (vec_len self.new.steps ≡ vec_len self.old.steps)) }
        ensures ahead { OnOk result (vec_len self.new.steps < vec_capacity self.new.steps) }
    {
        self.steps.reserve(2)?;
        self.steps.push_reserved(Step::Sync);
        Ok(())
    }

    /// What a crash leaves: the bytes at the last sync, and the first so many of what was written
    /// since.
    pub fn crash(&self, alloc: Global, keep: usize) -> Result<Vec<u8>, AllocError>
        ensures bytes { IfOk result (λ v. v.items
            ≡ crashed keep self.now.first.items self.now.steps.items) }
        ensures image { IfOk result (λ v. MayLeave self.now.first.items self.now.steps.items
            v.items) }
    {
        let mut now = self.first.to_vec(alloc)?;
        let mut image = self.first.to_vec(alloc)?;
        let mut left = keep;
        let mut at = 0;
        'steps: while at < self.steps.len() {
            left = replay_step(&self.steps[at], keep, left, &mut now, &mut image)?;
            at += 1;
        }
        Ok(image)
    }
}

// Carries out one step more on all bytes and on those that a crash keeps, and says how many bytes
// are still kept.
fn replay_step(
    step: &Step,
    keep: usize,
    left: usize,
    now: &mut Vec<u8>,
    image: &mut Vec<u8>,
) -> Result<usize, AllocError>
    requires inside { is_inside now.old.items step.now ≡ true }
    requires whole { (0 < left) → image.old.items ≡ now.old.items }
    ensures now { IfOk result (λ n. now.new.items ≡ bytes_after now.old.items step.now) }
    ensures goes_on { IfOk result (λ n. (steps : List Step)
        → kept_from keep n now.new.items image.new.items steps
        ≡ kept_from keep left now.old.items image.old.items (step.now ∷ steps)) }
    ensures whole { IfOk result (λ n. (0 < n) → image.new.items ≡ now.new.items) }
{
    match step {
        Step::Write { at, bytes } => {
            let kept = left.min(bytes.len());
            let (front, _) = bytes.as_slice().split_at(kept);
            if kept > 0 {
                write_over(image, *at, front)?;
            }
            write_over(now, *at, bytes)?;
            Ok(left - kept)
        }
        Step::Cut { .. } => Ok(left),
        Step::Sync => {
            image.clear();
            image.extend_from_slice(now)?;
            Ok(keep)
        }
    }
}

// Puts the piece at a place, over what is there and past the end.
fn write_over(held: &mut Vec<u8>, at: usize, piece: &[u8]) -> Result<(), AllocError>
    requires { at ≤ length held.old.items }
    ensures ok { OnOk result (held.new.items ≡ put at piece.now held.old.items) }
    ensures err { OnErr result (held.new.items ≡ held.old.items) }
{
    let inside = piece.len().min(held.len() - at);
    let (front, beyond) = piece.split_at(inside);
    held.extend_from_slice(beyond)?;
    held[at..at + inside].copy_from_slice(front);
    Ok(())
}
