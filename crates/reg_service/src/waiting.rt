// Payloads that wait in memory to be kept.
ghost use Rattle.std.specs.Prelude.{◌≡◌, ◌<◌, ◌^◌, [], ◌∷◌, ◌++◌, true, false, is_err, length};
ghost use Rattle.std.specs.Prelude.{Some, OnOk, OnErr, if◌then◌else◌};
ghost use Rattle.reg_outside.specs.Disk.{Leaves};
ghost use Rattle.reg_outside.specs.Faults.{HasCause};
ghost use Rattle.reg_keep.specs.Frames.{AreShort};
ghost use Rattle.reg_keep.specs.Keeping.{IsOneOf};
ghost use Rattle.reg_keep.specs.Pieces.{Kept, kept_now};
ghost use Rattle.reg_service.specs.Waiting.{all_of, none_behind, HeldSince, held_counts};
ghost use Rattle.reg_service.specs.Waiting.{held_earlier, held_only};

use reg_base::Bytes;
use reg_effect::Incremental;
use reg_keep::{KeepFault, Keeper};
use reg_machine::Machine;
use reg_outside::Stamp;
use std::alloc::{AllocError, Global};
use std::marker::Model;
use std::snapshot::Snapshot;

/// Payloads that wait in memory, in order, behind those of a history.
///
/// It is a keeper that has them all. What its clauses say of a stop is what a stop would leave if
/// those that wait were kept then. A real stop leaves of them nothing. That breaks no promise,
/// since nothing is acknowledged before they are kept (`Service::settle`).
///
/// Contracts see the history, the payloads that wait, and whether an append found no memory.
#[derive(Drop)]
pub struct Waiting {
    alloc: Global,
    before: Snapshot<Machine<Incremental>>,
    held: Vec<Bytes>,
    is_short: bool,
}

impl Model for Waiting {
    ghost use Rattle.reg_keep.specs.Frames.{AreShort};
    ghost use Rattle.reg_service.specs.Waiting.{Waits};

    ghost Value = { Waits };

    ghost view = { λ w. record { before = w.before.value.history; held = w.held.items; short = w.is_short } };

    ghost invariant = { λ w. AreShort w.held.items };
}

/// One payload more. Where it finds no memory they stay as they were.
fn push_copy(alloc: Global, held: &mut Vec<Bytes>, payload: &[u8]) -> Result<(), AllocError>
    ensures ok { OnOk result (held.new.items ≡ held.old.items ++ payload.now ∷ []) }
    ensures err { OnErr result (held.new.items ≡ held.old.items) }
{
    let copy = Bytes::of(alloc, payload)?;
    held.push(copy)?;
    Ok(())
}

impl Keeper for Waiting {
    ghost payloads = { λ w. Some (all_of w) };

    ghost has_failed = { λ w. w.short };

    ghost keep_faults = { λ w. if w.short then 1 else 0 };

    ghost keep_name = { λ w. length w.before };

    ghost stop_leaves = { λ w. Kept (all_of w) };

    ghost keep_moment = { λ w. length w.held };

    ghost stopped_since = { λ w. HeldSince w };

    ghost stop_now = { λ w r going left. kept_now (all_of w) r left };

    ghost stop_counts_now = { λ w t r le left. held_counts w t r le left };

    ghost stop_only_now = { λ w r left. held_only w r left };

    ghost stop_counts_earlier = { λ w t u r le left. held_earlier w t u r le left };

    /// Copies the payload into memory, where it waits behind the others. It fails only where it
    /// found no memory, and then those that wait are the same.
    fn append(&mut self, payload: &[u8]) -> Result<(), KeepFault>
        requires going { self.old.short ≡ false }
        requires size { length payload.now < 2 ^ 32 }
        ensures waits { OnOk result (self.new ≡ record {
          before = self.old.before;
          held = self.old.held ++ payload.now ∷ [];
          short = false;
        }) }
        ensures short { OnErr result (self.new ≡ record {
          before = self.old.before;
          held = self.old.held;
          short = true;
        }) }
        ensures kept { OnOk result (all_of self.new ≡ all_of self.old ++ payload.now ∷ []) }
        ensures failed { OnErr result (all_of self.new ≡ all_of self.old) }
        ensures going { self.new.short ≡ is_err result }
        ensures any_moment { Leaves (λ w. length w.held) HeldSince
            (IsOneOf (all_of self.old) payload.now) self.old self.new }
        ensures object { length self.new.before ≡ length self.old.before }
        ensures cause { HasCause (if self.old.short then 1 else 0)
            (if self.new.short then 1 else 0) result }
    {
        match push_copy(self.alloc, &mut self.held, payload) {
            Ok(()) => Ok(()),
            Err(AllocError) => {
                self.is_short = true;
                Err(KeepFault)
            }
        }
    }

    /// Copies one after the other, up to the first that finds no memory.
    fn append_all(&mut self, more: &[Bytes]) -> Result<(), KeepFault> {
        let mut left = more;
        'payloads: while let Some((payload, behind)) = left.split_first() {
            self.append(payload.bytes())?;
            left = behind;
        }
        Ok(())
    }

    /// How many payloads wait.
    fn stamp(&self) -> Stamp {
        Stamp::of(&self.held.len())
    }
}

impl Waiting {
    /// None behind the history of this machine. It takes no memory.
    pub(crate) fn behind(alloc: Global, machine: &Machine<Incremental>) -> Waiting
        ensures { result ≡ none_behind machine.now.history }
    {
        Waiting {
            alloc,
            before: Snapshot::of(machine),
            held: Vec::new(alloc),
            is_short: false,
        }
    }

    /// The payloads that wait.
    pub(crate) fn held(&self) -> &[Bytes]
        ensures held { result.now ≡ self.now.held }
        ensures short { AreShort result.now }
    {
        self.held.as_slice()
    }
}
