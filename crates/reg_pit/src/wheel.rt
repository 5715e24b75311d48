// The wheel group as it was noted.
ghost use Rattle.std.specs.Prelude.{◌≡◌, ◌≤◌, ℕ, [], IfOk, None, nat_le, if◌then◌else◌};
ghost use Rattle.reg_pit.specs.Wheel.{noted_at, AreNotedBy};

use reg_base::{GroupId, Moment};
use std::alloc::{AllocError, Global};
use std::collections::BTreeMap;
use std::marker::Model;

/// The wheel group, if there was one, as it was noted at some moments. Contracts see the notes by
/// their moments.
#[derive(Drop)]
pub(crate) struct Wheel {
    notes: BTreeMap<Moment, Option<GroupId>>,
}

impl Model for Wheel {
    ghost use Rattle.std.specs.Prelude.{List, Option, ℕ};

    ghost Value = { List (ℕ × Option ℕ) };

    ghost view = { λ w. w.notes.entries };
}

impl Wheel {
    /// Nothing was noted. Takes no memory.
    pub(crate) fn new(alloc: Global) -> Wheel
        ensures { result ≡ [] }
    {
        Wheel {
            notes: BTreeMap::new(alloc),
        }
    }

    /// From a moment on this is the wheel group; nothing was noted later.
    pub(crate) fn note(self, wheel: Option<GroupId>, at: Moment) -> Result<Wheel, AllocError>
        requires { AreNotedBy at self }
        ensures noted { IfOk result (λ after. (t : ℕ)
            → noted_at after t ≡ (if nat_le at t then wheel else noted_at self t)) }
        ensures last { IfOk result (λ after. AreNotedBy at after) }
    {
        let Wheel { mut notes } = self;
        notes.insert(at, wheel)?;
        Ok(Wheel { notes })
    }

    /// The wheel group at a moment: what was noted last up to it. Takes no memory.
    pub(crate) fn at(&self, t: Moment) -> Option<GroupId>
        ensures { result ≡ noted_at self.now t }
    {
        match self.notes.range(..=t).next_back() {
            Some((_, wheel)) => *wheel,
            None => None,
        }
    }
}
