// What stands at a moment, and the record of the steps up to it. Both stand on the heap, since a
// machine goes by value from function to function, and these are several hundred bytes.
ghost use Rattle.std.specs.Prelude.{◌≡◌, ◌≤◌, ◌+◌, List, [], Some, None, IfOk, OnOk};
ghost use Rattle.std.specs.List.{AllByRecursion};
ghost use Rattle.reg_terms.specs.declared.event.Event.{Event};
ghost use Rattle.reg_facts.specs.Events.{all_happened};
ghost use Rattle.reg_facts.specs.Lists.{Lists, start};
ghost use Rattle.reg_facts.specs.Sound.{IsSound};
ghost use Rattle.reg_current.specs.Invariant.{IsOpen};
ghost use Rattle.reg_effect.specs.Bound.{most_steps_of};
ghost use Rattle.reg_effect.specs.declared.live.Live.{Live};
ghost use Rattle.reg_effect.specs.Deltas.{ended};
ghost use Rattle.reg_effect.specs.Turned.{Remembers};
ghost use Rattle.reg_rules.specs.Actions.{changes_by};
ghost use Rattle.reg_rules.specs.Settling.{settle, settling};
ghost use Rattle.reg_audit.specs.Assigning.{assign_changes, MayNote};
ghost use Rattle.reg_audit.specs.Audit.{IsAudit};
ghost use Rattle.reg_audit.specs.Notes.{notes_of};
ghost use Rattle.reg_priv.specs.Touched.{KnowsTouched};
ghost use Rattle.reg_current.specs.Dates.{at_date, date_changes, date_events, date_passed};
ghost use Rattle.reg_current.specs.Dates.{date_steps, due};
ghost use Rattle.reg_current.specs.Holding.{AllHold};
ghost use Rattle.reg_current.specs.Live.{live};
ghost use Rattle.reg_machine.specs.Recording.{carried_step, carried_steps, settled_after};
ghost use Rattle.reg_machine.specs.Recording.{settled_step, Records};
ghost use Rattle.reg_machine.specs.Past.{date_step};
ghost use Rattle.reg_current.specs.Steps.{events_steps};

use reg_audit::{Audit, Notes, notes_of};
use reg_base::{Moment, Steps};
use reg_current::{Current, settled};
use reg_effect::{Kept, Turned};
use reg_facts::Event;
use reg_terms::Object;
use std::alloc::{AllocError, Global};
use std::sync::ledger::Ledger;

/// What stands at a moment, and the record of the steps up to it.
#[derive(Drop)]
pub struct Recorded<K: Kept> {
    current: Current<K>,
    audit: Audit,
}

/// What stands after some events, what they change themselves, the memberships that they turn,
/// which are remembered, and the objects whose grants they may change. It takes at most the steps
/// of these.
fn carried<K: Kept, L: Ledger>(
    alloc: Global,
    current: Current<K>,
    events: Vec<Event>,
    steps: &mut Steps<L>,
) -> Result<(Current<K>, Notes, Turned, Vec<Object>), AllocError>
    requires { AllHold current.clock events.items current.facts }
    ensures happened { IfOk result (λ r. r.0
        ≡ record { clock = current.clock; facts = all_happened events.items current.facts }) }
    ensures notes { IfOk result (λ r. r.1 ≡ notes_of current.clock current.facts events.items) }
    ensures told { IfOk result
        (λ r. Remembers (live current.clock current.facts) (live r.0.clock r.0.facts) r.2) }
    ensures touches { IfOk result (λ r. KnowsTouched current.facts r.0.facts r.3.items) }
    ensures cost { OnOk result (steps.new
        ≤ steps.old + events_steps current.clock events.items current.facts) }
{
    let mut turned = Turned::new(alloc);
    let mut touched = Vec::new(alloc);
    // By calls, here and below: dropped in place they would be taken apart by their parts.
    let noted = notes_of(alloc, current.clock(), current.facts(), &events);
    let Ok(notes) = noted else {
        drop(events);
        drop(current);
        return Err(AllocError);
    };
    let carried = current.carry_all(alloc, events, &mut turned, &mut touched, steps);
    let Ok(current) = carried else {
        drop(notes);
        return Err(AllocError);
    };
    Ok((current, notes, turned, touched))
}

/// What stands at the next date, what it changes itself, the memberships that it turns, which are
/// remembered, and the objects whose grants it may change: these are of grants that end or begin
/// there. It takes at most the steps of the memberships that end and begin there.
fn passed<K: Kept, L: Ledger>(
    alloc: Global,
    current: Current<K>,
    date: Moment,
    steps: &mut Steps<L>,
) -> Result<(Current<K>, Notes, Turned, Vec<Object>), AllocError>
    requires { due current.clock date current.facts ≡ Some date }
    ensures moved { IfOk result (λ r. r.0
        ≡ record { clock = date; facts = at_date date current.facts }) }
    ensures notes { IfOk result (λ r. r.1
        ≡ notes_of date current.facts (date_events date current.facts)) }
    ensures told { IfOk result
        (λ r. Remembers (live current.clock current.facts) (live r.0.clock r.0.facts) r.2) }
    ensures touches { IfOk result (λ r. KnowsTouched current.facts r.0.facts r.3.items) }
    ensures cost { OnOk result (steps.new
        ≤ steps.old + most_steps_of (date_changes date current.facts)
        (live current.clock current.facts)) }
{
    let mut turned = Turned::new(alloc);
    let mut touched = Vec::new(alloc);
    let Ok(events) = current.date_events(alloc, date) else {
        drop(current);
        return Err(AllocError);
    };
    let noted = notes_of(alloc, date, current.facts(), &events);
    let Ok(notes) = noted else {
        drop(events);
        drop(current);
        return Err(AllocError);
    };
    let passed = current.pass_date(alloc, date, events, &mut turned, &mut touched, steps);
    let Ok(current) = passed else {
        drop(notes);
        return Err(AllocError);
    };
    Ok((current, notes, turned, touched))
}

/// What follows a step, after which this stands, is carried out, and the step is recorded, by what
/// it changed itself, the memberships that it turned so far, and the objects whose grants it may
/// have changed. It takes at most the steps of what follows. Out of memory all is given up.
fn finished<K: Kept, L: Ledger>(
    alloc: Global,
    audit: Audit,
    current: Current<K>,
    notes: Notes,
    turned: Turned,
    touched: Vec<Object>,
    steps: &mut Steps<L>,
) -> Result<Recorded<K>, AllocError>
    requires { MayNote notes.at notes.assigns audit.past }
    ensures settled { IfOk result (λ r. (M : Live)
        → Remembers M (live current.clock current.facts) turned
        → r.current ≡ record {
          clock = current.clock;
          facts = settle (ended M (live current.clock current.facts)) current.clock current.facts;
        }) }
    ensures recorded { IfOk result (λ r. (before : Lists) (es : List Event) (M : Live)
        → Remembers M (live current.clock current.facts) turned
        → notes ≡ notes_of current.clock before es → KnowsTouched before current.facts touched.items
        → Records audit r.audit (settled_step current.clock before es M current.facts)) }
    ensures opens { IfOk result
        (λ r. AllByRecursion (IsOpen r.current.clock) r.current.facts.rows) }
    ensures sound { IfOk result (λ r. IsSound r.current.facts) }
    ensures cost { OnOk result ((M : Live) → Remembers M (live current.clock current.facts) turned
        → steps.new ≤ steps.old + most_steps_of
        (changes_by (settling (ended M (live current.clock current.facts)) current.clock
        current.facts)) (live current.clock current.facts)) }
{
    let after = settled(alloc, current, turned, steps);
    let Ok((current, actions, turns)) = after else {
        drop(audit);
        drop(notes);
        return Err(AllocError);
    };
    let acted = notes.with_actions(&actions);
    let Ok(notes) = acted else {
        drop(audit);
        drop(current);
        return Err(AllocError);
    };
    let noted = audit.note(alloc, notes, &turns, current.facts(), &touched);
    let Ok(audit) = noted else {
        drop(current);
        return Err(AllocError);
    };
    current.law_rows_open();
    current.facts().law_sound();
    Ok(Recorded { current, audit })
}

impl<K: Kept> Recorded<K> {
    /// The root folder alone, at the moment 0, and no step.
    pub fn start(alloc: Global) -> Result<Box<Recorded<K>>, AllocError>
        ensures now { IfOk result (λ b. b.value.current ≡ record { clock = 0; facts = start }) }
        ensures audit { IfOk result (λ b. IsAudit [] b.value.audit) }
    {
        let current = Current::start(alloc)?;
        let audit = Audit::start(alloc);
        let recorded = Box::new(alloc, Recorded { current, audit })?;
        Ok(recorded)
    }

    /// What stands.
    pub fn current(&self) -> &Current<K>
        ensures { result.now ≡ self.now.current }
    {
        &self.current
    }

    /// The record of the steps.
    pub fn audit(&self) -> &Audit
        ensures { result.now ≡ self.now.audit }
    {
        &self.audit
    }

    /// What stands after some events, one after another, and what rules do after them, which are
    /// recorded as one step. It takes at most the steps of these.
    pub fn carry<L: Ledger>(
        self,
        alloc: Global,
        events: Vec<Event>,
        steps: &mut Steps<L>,
    ) -> Result<Recorded<K>, AllocError>
        requires hold { AllHold self.current.clock events.items self.current.facts }
        requires noted { MayNote self.current.clock (assign_changes events.items) self.audit.past }
        ensures happened { IfOk result (λ r. r.current
            ≡ record {
              clock = self.current.clock;
              facts = settled_after self.current events.items;
            }) }
        ensures recorded { IfOk result
            (λ r. Records self.audit r.audit (carried_step self.current events.items)) }
        ensures opens { IfOk result
            (λ r. AllByRecursion (IsOpen r.current.clock) r.current.facts.rows) }
        ensures sound { IfOk result (λ r. IsSound r.current.facts) }
        ensures cost { OnOk result (steps.new
            ≤ steps.old + carried_steps self.current events.items) }
    {
        let Recorded { current, audit } = self;
        let after = carried(alloc, current, events, steps);
        let Ok((current, notes, turned, touched)) = after else {
            drop(audit);
            return Err(AllocError);
        };
        finished(alloc, audit, current, notes, turned, touched, steps)
    }

    /// What stands at the next date, with what rules do there, which is recorded as a step. It
    /// takes at most the steps of the memberships that end and begin there, and of what rules do.
    pub fn pass_date<L: Ledger>(
        self,
        alloc: Global,
        date: Moment,
        steps: &mut Steps<L>,
    ) -> Result<Recorded<K>, AllocError>
        requires due { due self.current.clock date self.current.facts ≡ Some date }
        requires noted { MayNote date
            (assign_changes (date_events date self.current.facts)) self.audit.past }
        ensures moved { IfOk result (λ r. r.current
            ≡ record {
              clock = date;
              facts = date_passed self.current.clock date self.current.facts;
            }) }
        ensures recorded { IfOk result
            (λ r. Records self.audit r.audit
            (date_step self.current.clock date self.current.facts)) }
        ensures opens { IfOk result
            (λ r. AllByRecursion (IsOpen r.current.clock) r.current.facts.rows) }
        ensures sound { IfOk result (λ r. IsSound r.current.facts) }
        ensures cost { OnOk result (steps.new
            ≤ steps.old + date_steps self.current.clock date self.current.facts) }
    {
        let Recorded { current, audit } = self;
        let after = passed(alloc, current, date, steps);
        let Ok((current, notes, turned, touched)) = after else {
            drop(audit);
            return Err(AllocError);
        };
        finished(alloc, audit, current, notes, turned, touched, steps)
    }

    /// Goes on to a moment up to which no date comes. Nothing else changes.
    pub fn wait(&mut self, to: Moment)
        requires later { self.old.current.clock ≤ to }
        requires none { due self.old.current.clock to self.old.current.facts ≡ None }
        ensures now { self.new.current ≡ record { clock = to; facts = self.old.current.facts } }
        ensures audit { self.new.audit ≡ self.old.audit }
    {
        self.current.wait(to);
    }
}

/// The same on the heap: what stands after some events and what rules do after them.
pub fn carried_on<K: Kept, L: Ledger>(
    alloc: Global,
    recorded: Box<Recorded<K>>,
    events: Vec<Event>,
    steps: &mut Steps<L>,
) -> Result<Box<Recorded<K>>, AllocError>
    requires hold { AllHold recorded.value.current.clock events.items recorded.value.current.facts }
    requires noted { MayNote recorded.value.current.clock
        (assign_changes events.items) recorded.value.audit.past }
    ensures happened { IfOk result (λ b. b.value.current
        ≡ record {
          clock = recorded.value.current.clock;
          facts = settled_after recorded.value.current events.items;
        }) }
    ensures recorded { IfOk result
        (λ b. Records recorded.value.audit b.value.audit
        (carried_step recorded.value.current events.items)) }
    ensures opens { IfOk result
        (λ b. AllByRecursion (IsOpen b.value.current.clock) b.value.current.facts.rows) }
    ensures sound { IfOk result (λ b. IsSound b.value.current.facts) }
    ensures cost { OnOk result (steps.new
        ≤ steps.old + carried_steps recorded.value.current events.items) }
{
    let recorded = Box::into_inner(recorded).carry(alloc, events, steps)?;
    let recorded = Box::new(alloc, recorded)?;
    Ok(recorded)
}

/// The same on the heap: what stands at the next date, with what rules do there.
pub fn passed_on<K: Kept, L: Ledger>(
    alloc: Global,
    recorded: Box<Recorded<K>>,
    date: Moment,
    steps: &mut Steps<L>,
) -> Result<Box<Recorded<K>>, AllocError>
    requires due { due recorded.value.current.clock date recorded.value.current.facts
        ≡ Some date }
    requires noted { MayNote date
        (assign_changes (date_events date recorded.value.current.facts))
        recorded.value.audit.past }
    ensures moved { IfOk result (λ b. b.value.current
        ≡ record {
          clock = date;
          facts = date_passed recorded.value.current.clock date recorded.value.current.facts;
        }) }
    ensures recorded { IfOk result
        (λ b. Records recorded.value.audit b.value.audit
        (date_step recorded.value.current.clock date recorded.value.current.facts)) }
    ensures opens { IfOk result
        (λ b. AllByRecursion (IsOpen b.value.current.clock) b.value.current.facts.rows) }
    ensures sound { IfOk result (λ b. IsSound b.value.current.facts) }
    ensures cost { OnOk result (steps.new
        ≤ steps.old + date_steps recorded.value.current.clock date recorded.value.current.facts) }
{
    let recorded = Box::into_inner(recorded).pass_date(alloc, date, steps)?;
    let recorded = Box::new(alloc, recorded)?;
    Ok(recorded)
}
