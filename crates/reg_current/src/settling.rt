// What follows a step: what rules do, in all that stands.
ghost use Rattle.std.specs.Prelude.{◌≡◌, ◌+◌, ◌≤◌, ◌<◌, ◌∷◌, [], Some, IfOk, OnOk};
ghost use Rattle.reg_effect.specs.declared.live.Live.{Live};
ghost use Rattle.reg_effect.specs.Bound.{most_steps_of};
ghost use Rattle.reg_effect.specs.Deltas.{ended};
ghost use Rattle.reg_effect.specs.Turned.{Remembers, turns};
ghost use Rattle.reg_rules.specs.Actions.{changes_by};
ghost use Rattle.reg_rules.specs.Settling.{losses, settle, settling};
ghost use Rattle.reg_current.specs.Live.{live};

use crate::current::Current;
use reg_base::{GroupId, Moment, Steps, SubjectId};
use reg_effect::{Kept, Pairs, Turned};
use reg_facts::{Event, Facts, Member};
use reg_rules::{Action, Carrier, settle_in};
use std::alloc::{AllocError, Global};
use std::sync::ledger::Ledger;

impl<K: Kept> Carrier for Current<K> {
    ghost stands = { λ c. record { clock = c.clock; facts = c.facts } };

    fn moment(&self) -> Moment {
        self.clock()
    }

    fn facts(&self) -> &Facts {
        self.facts()
    }

    fn turned_since(&self, turned: &Turned) -> Result<Vec<(GroupId, SubjectId, bool)>, AllocError> {
        turned.list(self.kept())
    }

    fn without_row<L: Ledger>(
        self,
        alloc: Global,
        group: GroupId,
        person: SubjectId,
        turned: &mut Turned,
        steps: &mut Steps<L>,
    ) -> Result<Self, AllocError> {
        let member = Member::Person(person);
        self.carry(alloc, Event::RowRemoved { group, member }, turned, steps)
    }

    fn with_end<L: Ledger>(
        self,
        alloc: Global,
        group: GroupId,
        person: SubjectId,
        from: Moment,
        until: Moment,
        turned: &mut Turned,
        steps: &mut Steps<L>,
    ) -> Result<Self, AllocError> {
        let event = Event::RowRedated {
            group,
            member: Member::Person(person),
            from,
            until: Some(until),
        };
        self.carry(alloc, event, turned, steps)
    }
}

/// Of memberships that were turned, those that ended. Where none did it takes no memory.
fn losses(alloc: Global, turns: &[(GroupId, SubjectId, bool)]) -> Result<Pairs, AllocError>
    ensures { IfOk result (λ ended. ended ≡ losses turns.now) }
{
    let mut ended = Pairs::new(alloc);
    for turn in turns {
        if !turn.2 {
            ended.push((turn.0, turn.1))?;
        }
    }
    Ok(ended)
}

/// What stands after what follows where these memberships (group, person) ended, what rules did, in
/// order, and the memberships that were turned since they are remembered. It takes at most the
/// steps of the changes that rules make. Out of memory all is given up.
fn followed<K: Kept, L: Ledger>(
    alloc: Global,
    current: Current<K>,
    ended: Pairs,
    turned: Turned,
    steps: &mut Steps<L>,
) -> Result<(Current<K>, Vec<Action>, Vec<(GroupId, SubjectId, bool)>), AllocError>
    ensures stands { IfOk result (λ r. r.0
        ≡ record { clock = current.clock; facts = settle ended current.clock current.facts }) }
    ensures actions { IfOk result (λ r. r.1.items ≡ settling ended current.clock current.facts) }
    ensures turns { IfOk result (λ r. (M : Live)
        → Remembers M (live current.clock current.facts) turned
        → r.2.items ≡ turns M (live r.0.clock r.0.facts)) }
    ensures cost { OnOk result (steps.new
        ≤ steps.old + most_steps_of (changes_by (settling ended current.clock current.facts))
        (live current.clock current.facts)) }
{
    let mut turned = turned;
    let last = settle_in(alloc, current, ended, &mut turned, steps);
    // by calls, here and below: dropped in place they would be taken apart by their parts
    let Ok((current, actions)) = last else {
        drop(turned);
        return Err(AllocError);
    };
    let listed = turned.list(current.kept());
    drop(turned);
    let Ok(turns) = listed else {
        drop(current);
        drop(actions);
        return Err(AllocError);
    };
    Ok((current, actions, turns))
}

/// The memberships that were turned since they are remembered, and those of them that ended.
fn turned_so_far<K: Kept>(
    alloc: Global,
    current: &Current<K>,
    turned: &Turned,
) -> Result<(Vec<(GroupId, SubjectId, bool)>, Pairs), AllocError>
    ensures turns { IfOk result (λ r. (M : Live)
        → Remembers M (live current.now.clock current.now.facts) turned.now
        → r.0.items ≡ turns M (live current.now.clock current.now.facts)) }
    ensures ended { IfOk result (λ r. (M : Live)
        → Remembers M (live current.now.clock current.now.facts) turned.now
        → r.1 ≡ ended M (live current.now.clock current.now.facts)) }
{
    let turns = turned.list(current.kept())?;
    let ended = losses(alloc, &turns)?;
    Ok((turns, ended))
}

/// What stands after what follows a step, what rules did, in order, and the memberships that the
/// step turned; those that it turned so far are remembered. Where it ended none, nothing follows,
/// and that costs a look at these. It takes at most the steps of the changes that rules make. Out
/// of memory all is given up.
pub fn settled<K: Kept, L: Ledger>(
    alloc: Global,
    current: Current<K>,
    turned: Turned,
    steps: &mut Steps<L>,
) -> Result<(Current<K>, Vec<Action>, Vec<(GroupId, SubjectId, bool)>), AllocError>
    ensures stands { IfOk result (λ r. (M : Live)
        → Remembers M (live current.clock current.facts) turned
        → r.0 ≡ record {
          clock = current.clock;
          facts = settle (ended M (live current.clock current.facts)) current.clock current.facts;
        }) }
    ensures actions { IfOk result (λ r. (M : Live)
        → Remembers M (live current.clock current.facts) turned
        → r.1.items ≡ settling (ended M (live current.clock current.facts)) current.clock
        current.facts) }
    ensures turns { IfOk result (λ r. (M : Live)
        → Remembers M (live current.clock current.facts) turned
        → r.2.items ≡ turns M (live r.0.clock r.0.facts)) }
    ensures cost { OnOk result ((M : Live) → Remembers M (live current.clock current.facts) turned
        → steps.new ≤ steps.old + most_steps_of
        (changes_by (settling (ended M (live current.clock current.facts)) current.clock
        current.facts)) (live current.clock current.facts)) }
{
    let so_far = turned_so_far(alloc, &current, &turned);
    let Ok((turns, ended)) = so_far else {
        drop(turned);
        drop(current);
        return Err(AllocError);
    };
    if ended.list().is_empty() {
        drop(ended);
        drop(turned);
        return Ok((current, Vec::new(alloc), turns));
    }
    drop(turns);
    followed(alloc, current, ended, turned, steps)
}
