// What stands at a moment: the facts, and all that is kept beside them.
ghost use Rattle.std.specs.Prelude.{◌≡◌, ◌+◌, ◌≤◌, ◌<◌, false, IfOk, OnOk, None, Some};
ghost use Rattle.std.specs.List.{AllByRecursion};
ghost use Rattle.std.specs.List.Sorted.{IsPermutation};
ghost use Rattle.reg_terms.specs.Rows as terms;
ghost use Rattle.reg_facts.specs.Events.{happened, all_happened};
ghost use Rattle.reg_facts.specs.Lists.{Lists, start};
ghost use Rattle.reg_facts.specs.Suiting.{Suits};
ghost use Rattle.reg_effect.specs.declared.live.Live.{Live};
ghost use Rattle.reg_effect.specs.Bound.{most_steps_of};
ghost use Rattle.reg_effect.specs.Changes.{changed_by, all_on, SuitAll};
ghost use Rattle.reg_effect.specs.Standing.{standing};
ghost use Rattle.reg_effect.specs.Turned.{Remembers};
ghost use Rattle.reg_priv.specs.Touched.{KnowsTouched};
ghost use Rattle.reg_current.specs.Circles as circles;
ghost use Rattle.reg_current.specs.Circles.{ClosesNone};
ghost use Rattle.reg_current.specs.Coming.{FindsDates};
ghost use Rattle.reg_current.specs.Dates.{at_date, beginning, date_changes, date_events, due};
ghost use Rattle.reg_current.specs.Dates.{IsNext};
ghost use Rattle.reg_current.specs.Holding.{Holds, AllHold};
ghost use Rattle.reg_current.specs.Invariant.{IsOpen, IsGrantOpen};
ghost use Rattle.reg_current.specs.Live.{live};
ghost use Rattle.reg_current.specs.Steps.{changes_of, event_steps, events_steps};

use crate::changes::carry_out;
use crate::dates::Dates;
use crate::edges::relink;
use crate::ending::events_at;
use crate::redating::redate;
use crate::touching::put_touched;
use reg_base::{GroupId, Moment, Steps};
use reg_effect::{Kept, Turned, put_on};
use reg_facts::{Event, Facts};
use reg_graph::Dag;
use reg_terms::Object;
use std::alloc::{AllocError, Global};
use std::marker::Model;
use std::sync::ledger::Ledger;

/// The facts at a moment, the effective memberships, however `K` keeps them, the graph of all
/// nested groups and factors that stand, and the dates to come. Contracts see moment and facts.
#[derive(Drop)]
pub struct Current<K: Kept> {
    moment: Moment,
    facts: Facts,
    sets: K,
    graph: Dag,
    dates: Dates,
}

impl<K: Kept> Model for Current<K> {
    ghost use Rattle.reg_current.specs.Invariant.{IsBeside, Now};

    ghost Value = { Now };

    ghost view = { λ c. record { clock = c.moment; facts = c.facts } };

    ghost invariant = { λ c. IsBeside c.moment c.facts (K.held c.sets) c.graph c.dates };
}

/// Carries an event out at the clock in the kept memberships, in the graph of what stands and in
/// the dates to come; the facts are those before it. Out of memory all three are given up.
fn carry_beside<K: Kept, L: Ledger>(
    kept: K,
    graph: &mut Dag,
    dates: &mut Dates,
    facts: &Facts,
    at: Moment,
    event: &Event,
    turned: &mut Turned,
    steps: &mut Steps<L>,
) -> Result<K, AllocError>
    requires suits { Suits event.now facts.now }
    requires no_circle { ClosesNone event.now facts.now }
    requires stands { IsPermutation graph.old (standing facts.now.rows facts.now.composites) }
    requires found { FindsDates dates.old at facts.now }
    requires suit { SuitAll (changes_of at event.now (K.held kept)) (K.held kept) }
    ensures held { IfOk result (λ k. K.held k
        ≡ changed_by (changes_of at event.now (K.held kept)) (K.held kept)) }
    ensures told { IfOk result (λ k. (M : Live) → Remembers M (K.held kept) turned.old
        → Remembers M (K.held k) turned.new) }
    ensures edges { OnOk result
        (IsPermutation graph.new
        (standing (happened event.now facts.now).rows (happened event.now facts.now).composites)) }
    ensures coming { OnOk result (FindsDates dates.new at (happened event.now facts.now)) }
    ensures cost { OnOk result (steps.new
        ≤ steps.old + most_steps_of (changes_of at event.now (K.held kept)) (K.held kept)) }
{
    let kept = carry_out(kept, at, event, turned, steps)?;
    relink(graph, facts, event)?;
    redate(dates, facts, at, event)?;
    Ok(kept)
}

impl<K: Kept> Current<K> {
    /// The root folder alone, at the moment 0.
    pub fn start(alloc: Global) -> Result<Current<K>, AllocError>
        ensures { IfOk result (λ c. c ≡ record { clock = 0; facts = start }) }
    {
        let facts = Facts::start(alloc)?;
        let sets = K::start(alloc)?;
        Ok(Current {
            moment: Moment::start(),
            facts,
            sets,
            graph: Dag::new(alloc),
            dates: Dates::new(alloc),
        })
    }

    /// The moment.
    pub fn clock(&self) -> Moment
        ensures { result ≡ self.now.clock }
    {
        self.moment
    }

    /// The facts.
    pub fn facts(&self) -> &Facts
        ensures { result.now ≡ self.now.facts }
    {
        &self.facts
    }

    /// The effective memberships.
    pub fn kept(&self) -> &K
        ensures { K.held result.now ≡ live self.now.clock self.now.facts }
    {
        &self.sets
    }

    /// The next date of a membership or a grant, if it comes up to a moment. It is a look at the
    /// first dates to come.
    pub fn next_date(&self, to: Moment) -> Option<Moment>
        ensures { result ≡ due self.now.clock to self.now.facts }
    {
        self.dates.next(to)
    }

    /// Whether the group is a factor of a composite, where no row names it.
    pub fn is_factor(&self, group: GroupId) -> bool
        requires { terms.is_nested group self.now.facts.rows ≡ false }
        ensures { result ≡ terms.is_factor group self.now.facts.composites }
    {
        self.graph.is_needed(group)
    }

    /// Whether a row of the group that names the other, or a factor, would lead back.
    pub fn leads_back(&self, group: GroupId, other: GroupId) -> Result<bool, AllocError>
        ensures { IfOk result (λ b. b ≡ circles.leads_back group other self.now.facts) }
    {
        self.graph.reaches(other, group)
    }

    /// Each row ends later than now, and after it begins. It does nothing.
    pub fn law_rows_open(&self)
        ensures { AllByRecursion (IsOpen self.now.clock) self.now.facts.rows }
    {
        let _ = &self.facts;
    }

    /// A grant that hasn't begun begins later than now, and each grant ends later than now, and
    /// after it begins. It does nothing.
    pub fn law_grants_open(&self)
        ensures { AllByRecursion (IsGrantOpen self.now.clock) self.now.facts.grants }
    {
        let _ = &self.facts;
    }

    /// The events of the next date can happen one after another, and make it, and the changes of
    /// live data that the date makes suit. It does nothing.
    pub fn law_date(&self, date: Moment)
        requires { due self.now.clock date self.now.facts ≡ Some date }
        ensures hold { AllHold self.now.clock (date_events date self.now.facts) self.now.facts }
        ensures gone { all_happened (date_events date self.now.facts) self.now.facts
            ≡ at_date date self.now.facts }
        ensures suit { SuitAll (date_changes date self.now.facts)
            (live self.now.clock self.now.facts) }
    {
        let _date = date;
        self.facts.law_sound();
        self.facts.law_held();
        self.graph.acyclic();
    }

    /// What stands after an event, and whom it turns is remembered. It takes at most the steps of
    /// the changes of live data that the event makes.
    pub fn carry<L: Ledger>(
        self,
        alloc: Global,
        event: Event,
        turned: &mut Turned,
        steps: &mut Steps<L>,
    ) -> Result<Current<K>, AllocError>
        requires { Holds self.clock event self.facts }
        ensures happened { IfOk result (λ c. c
            ≡ record { clock = self.clock; facts = happened event self.facts }) }
        ensures told { IfOk result (λ c. (M : Live)
            → Remembers M (live self.clock self.facts) turned.old
            → Remembers M (live c.clock c.facts) turned.new) }
        ensures cost { OnOk result (steps.new
            ≤ steps.old + event_steps self.clock event self.facts) }
    {
        let mut current = self;
        current.facts.law_sound();
        current.graph.acyclic();
        let carried = carry_beside(
            current.sets,
            &mut current.graph,
            &mut current.dates,
            &current.facts,
            current.moment,
            &event,
            turned,
            steps,
        );
        // by calls, here and below: dropped in place they would be taken apart by their parts
        let Ok(sets) = carried else {
            drop(event);
            drop(current.facts);
            drop(current.graph);
            drop(current.dates);
            return Err(AllocError);
        };
        let taken = current.facts.take(alloc, event);
        let Ok(facts) = taken else {
            drop(sets);
            drop(current.graph);
            drop(current.dates);
            return Err(AllocError);
        };
        current.facts = facts;
        current.sets = sets;
        Ok(current)
    }

    /// What stands after an event, whom it turns, and the objects whose grants it may change. It
    /// takes at most the steps of the changes of live data that the event makes.
    fn carry_told<L: Ledger>(
        self,
        alloc: Global,
        event: Event,
        turned: &mut Turned,
        touched: &mut Vec<Object>,
        steps: &mut Steps<L>,
    ) -> Result<Current<K>, AllocError>
        requires { Holds self.clock event self.facts }
        ensures happened { IfOk result (λ c. c
            ≡ record { clock = self.clock; facts = happened event self.facts }) }
        ensures told { IfOk result (λ c. (M : Live)
            → Remembers M (live self.clock self.facts) turned.old
            → Remembers M (live c.clock c.facts) turned.new) }
        ensures touches { IfOk result (λ c. (f : Lists)
            → KnowsTouched f self.facts touched.old.items
            → KnowsTouched f c.facts touched.new.items) }
        ensures cost { OnOk result (steps.new
            ≤ steps.old + event_steps self.clock event self.facts) }
    {
        match put_touched(alloc, self.facts(), &event, touched) {
            Ok(()) => self.carry(alloc, event, turned, steps),
            // by calls: dropped in place they would be taken apart by their parts
            Err(AllocError) => {
                drop(event);
                drop(self);
                Err(AllocError)
            }
        }
    }

    /// What stands after some events, one after another, whom these turn, and the objects whose
    /// grants they may change. It takes at most the steps of these.
    pub fn carry_all<L: Ledger>(
        self,
        alloc: Global,
        events: Vec<Event>,
        turned: &mut Turned,
        touched: &mut Vec<Object>,
        steps: &mut Steps<L>,
    ) -> Result<Current<K>, AllocError>
        requires { AllHold self.clock events.items self.facts }
        ensures happened { IfOk result (λ c. c
            ≡ record { clock = self.clock; facts = all_happened events.items self.facts }) }
        ensures told { IfOk result (λ c. (M : Live)
            → Remembers M (live self.clock self.facts) turned.old
            → Remembers M (live c.clock c.facts) turned.new) }
        ensures touches { IfOk result (λ c. (f : Lists)
            → KnowsTouched f self.facts touched.old.items
            → KnowsTouched f c.facts touched.new.items) }
        ensures cost { OnOk result (steps.new
            ≤ steps.old + events_steps self.clock events.items self.facts) }
    {
        let mut current = self;
        for event in events {
            current = current.carry_told(alloc, event, turned, touched, steps)?;
        }
        Ok(current)
    }

    /// Goes on to a date, before which no date comes, and at which no membership ends and no grant
    /// begins or ends: the memberships that begin there come on. It takes at most the steps of
    /// these.
    fn begin<L: Ledger>(
        self,
        date: Moment,
        turned: &mut Turned,
        steps: &mut Steps<L>,
    ) -> Result<Current<K>, AllocError>
        requires { IsNext self.clock date self.facts }
        ensures moved { IfOk result (λ c. c ≡ record { clock = date; facts = self.facts }) }
        ensures told { IfOk result (λ c. (M : Live)
            → Remembers M (live self.clock self.facts) turned.old
            → Remembers M (live c.clock c.facts) turned.new) }
        ensures cost { OnOk result (steps.new
            ≤ steps.old + most_steps_of (all_on (beginning date self.facts.rows))
            (live self.clock self.facts)) }
    {
        let mut current = self;
        current.facts.law_sound();
        current.graph.acyclic();
        let found = current.dates.beginning(date);
        let Ok(beginning) = found else {
            drop(current);
            return Err(AllocError);
        };
        let put = put_on(current.sets, &beginning, turned, steps);
        let Ok(sets) = put else {
            drop(current.facts);
            drop(current.graph);
            drop(current.dates);
            return Err(AllocError);
        };
        current.dates.pass(date);
        current.sets = sets;
        current.moment = date;
        Ok(current)
    }

    /// The events of the next date: the memberships and the grants that end there go, and then the
    /// grants that begin there are on.
    pub fn date_events(&self, alloc: Global, date: Moment) -> Result<Vec<Event>, AllocError>
        requires { self.now.clock < date }
        ensures { IfOk result (λ events. events.items ≡ date_events date self.now.facts) }
    {
        events_at(alloc, &self.dates, &self.facts, self.moment, date)
    }

    /// Goes on to the next date, whose events these are: what ends there goes, and what begins
    /// there comes on. It takes at most the steps of the memberships among these.
    pub fn pass_date<L: Ledger>(
        self,
        alloc: Global,
        date: Moment,
        events: Vec<Event>,
        turned: &mut Turned,
        touched: &mut Vec<Object>,
        steps: &mut Steps<L>,
    ) -> Result<Current<K>, AllocError>
        requires due { due self.clock date self.facts ≡ Some date }
        requires events { events.items ≡ date_events date self.facts }
        ensures moved { IfOk result (λ c. c
            ≡ record { clock = date; facts = at_date date self.facts }) }
        ensures told { IfOk result (λ c. (M : Live)
            → Remembers M (live self.clock self.facts) turned.old
            → Remembers M (live c.clock c.facts) turned.new) }
        ensures touches { IfOk result (λ c. (f : Lists)
            → KnowsTouched f self.facts touched.old.items
            → KnowsTouched f c.facts touched.new.items) }
        ensures cost { OnOk result (steps.new
            ≤ steps.old + most_steps_of (date_changes date self.facts)
            (live self.clock self.facts)) }
    {
        let current = self;
        current.law_rows_open();
        current.law_date(date);
        let current = current.carry_all(alloc, events, turned, touched, steps)?;
        current.begin(date, turned, steps)
    }

    /// Goes on to a moment up to which no date comes. Nothing else changes.
    pub fn wait(&mut self, to: Moment)
        requires later { self.old.clock ≤ to }
        requires none { due self.old.clock to self.old.facts ≡ None }
        ensures { self.new ≡ record { clock = to; facts = self.old.facts } }
    {
        self.moment = to;
    }
}
