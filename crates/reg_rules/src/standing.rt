// Facts and memberships alone, which follow what rules do.
ghost use Rattle.std.specs.Prelude.{◌≡◌, ◌+◌, ◌≤◌, ◌<◌, ◌∷◌, [], Some, IfOk, OnOk};
ghost use Rattle.reg_effect.specs.declared.live.Live.{Live};
ghost use Rattle.reg_effect.specs.Turned.{Remembers};
ghost use Rattle.reg_rules.specs.Live.{live};

use crate::Carrier;
use reg_base::{GroupId, Moment, Steps, SubjectId};
use reg_effect::{Change, Kept, Turned, change_one};
use reg_facts::{Facts, Member};
use std::alloc::{AllocError, Global};
use std::marker::Model;
use std::sync::ledger::Ledger;

/// The facts at a moment, and the effective memberships then, however `K` keeps them. Contracts see
/// moment and facts.
#[derive(Drop)]
pub struct Standing<K: Kept> {
    at: Moment,
    facts: Facts,
    kept: K,
}

impl<K: Kept> Model for Standing<K> {
    ghost use Rattle.std.specs.Prelude.{◌≡◌};
    ghost use Rattle.reg_rules.specs.Live.{Now, live};

    ghost Value = { Now };

    ghost view = { λ s. record { clock = s.at; facts = s.facts } };

    ghost invariant = { λ s. K.held s.kept ≡ live s.at s.facts };
}

impl<K: Kept> Standing<K> {
    /// Facts at a moment, and the effective memberships then.
    pub fn new(at: Moment, facts: Facts, kept: K) -> Standing<K>
        requires { K.held kept ≡ live at facts }
        ensures { result ≡ record { clock = at; facts = facts } }
    {
        Standing { at, facts, kept }
    }

    /// The facts and the effective memberships.
    pub fn parts(self) -> (Facts, K)
        ensures facts { result.0 ≡ self.facts }
        ensures kept { K.held result.1 ≡ live self.clock self.facts }
    {
        let Standing { facts, kept, .. } = self;
        (facts, kept)
    }
}

impl<K: Kept> Carrier for Standing<K> {
    ghost stands = { λ s. s };

    fn moment(&self) -> Moment {
        self.at
    }

    fn facts(&self) -> &Facts {
        &self.facts
    }

    fn turned_since(&self, turned: &Turned) -> Result<Vec<(GroupId, SubjectId, bool)>, AllocError> {
        turned.list(&self.kept)
    }

    fn without_row<L: Ledger>(
        self,
        alloc: Global,
        group: GroupId,
        person: SubjectId,
        turned: &mut Turned,
        steps: &mut Steps<L>,
    ) -> Result<Self, AllocError> {
        let Standing { at, facts, kept } = self;
        let member = Member::Person(person);
        let _ = kept.live();
        let kept = change_one(kept, &Change::RowOff { group, member }, turned, steps)?;
        let facts = facts.take_row(alloc, group, Member::Person(person))?;
        Ok(Standing { at, facts, kept })
    }

    fn with_end<L: Ledger>(
        self,
        alloc: Global,
        group: GroupId,
        person: SubjectId,
        from: Moment,
        until: Moment,
        turned: &mut Turned,
        steps: &mut Steps<L>,
    ) -> Result<Self, AllocError> {
        let _ = turned;
        let _ = steps;
        let Standing { at, facts, kept } = self;
        facts.law_sound();
        let facts = facts.set_until(alloc, group, Member::Person(person), from, Some(until))?;
        Ok(Standing { at, facts, kept })
    }
}
