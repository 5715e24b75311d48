// What stands at a moment, and follows what rules do.
ghost use Rattle.std.specs.Prelude.{◌≡◌, ◌+◌, ◌≤◌, ◌<◌, ◌∷◌, [], Some, IfOk, OnOk};
ghost use Rattle.reg_terms.specs.declared.event.Event.TheVariants.{RowRemoved, RowRedated};
ghost use Rattle.reg_terms.specs.declared.kinds.Member.TheVariants.{Person};
ghost use Rattle.reg_facts.specs.Events.{happened};
ghost use Rattle.reg_effect.specs.declared.live.Live.{Live};
ghost use Rattle.reg_effect.specs.declared.live.Change.TheVariants.{RowOff};
ghost use Rattle.reg_effect.specs.Bound.{most_steps_of};
ghost use Rattle.reg_effect.specs.Turned.{Remembers, turns};
ghost use Rattle.reg_rules.specs.Live.{Now, live_now, IsOn, IsOnSince};

use reg_base::{GroupId, Moment, Steps, SubjectId};
use reg_effect::Turned;
use reg_facts::Facts;
use std::alloc::{AllocError, Global};
use std::sync::ledger::Ledger;

/// The facts at a moment with all that is kept beside them, however it is kept.
pub trait Carrier: Drop {
    /// The moment and the facts.
    ghost stands: { Self → Now };

    /// The moment.
    fn moment(&self) -> Moment
        ensures { result ≡ (stands self.now).clock };

    /// The facts.
    fn facts(&self) -> &Facts
        ensures { result.now ≡ (stands self.now).facts };

    /// The memberships that changes turned since they are remembered, by group and person: those
    /// that began, and those that ended.
    fn turned_since(&self, turned: &Turned) -> Result<Vec<(GroupId, SubjectId, bool)>, AllocError>
        ensures { IfOk result (λ list. (M : Live)
            → Remembers M (live_now (stands self.now)) turned.now
            → list.items ≡ turns M (live_now (stands self.now))) };

    /// A person's immediate membership, which is on, goes, and whom that turns is remembered. It
    /// takes at most the steps of that change. Out of memory all is given up.
    fn without_row<L: Ledger>(
        self,
        alloc: Global,
        group: GroupId,
        person: SubjectId,
        turned: &mut Turned,
        steps: &mut Steps<L>,
    ) -> Result<Self, AllocError>
        requires { IsOn (stands self) group person }
        ensures happened { IfOk result (λ next. stands next
            ≡ record {
              clock = (stands self).clock;
              facts = happened (RowRemoved group (Person person)) (stands self).facts;
            }) }
        ensures told { IfOk result (λ next. (M : Live)
            → Remembers M (live_now (stands self)) turned.old
            → Remembers M (live_now (stands next)) turned.new) }
        ensures cost { OnOk result (steps.new
            ≤ steps.old + most_steps_of (RowOff group (Person person)
            ∷ []) (live_now (stands self))) };

    /// A person's immediate membership, which is on since `from`, ends at a later moment. Nobody is
    /// turned by that, and it takes no steps. Out of memory all is given up.
    fn with_end<L: Ledger>(
        self,
        alloc: Global,
        group: GroupId,
        person: SubjectId,
        from: Moment,
        until: Moment,
        turned: &mut Turned,
        steps: &mut Steps<L>,
    ) -> Result<Self, AllocError>
        requires on { IsOnSince (stands self) group person from }
        requires later { (stands self).clock < until }
        ensures happened { IfOk result (λ next. stands next
            ≡ record {
              clock = (stands self).clock;
              facts = happened (RowRedated group (Person person) from (Some until))
                  (stands self).facts;
            }) }
        ensures told { IfOk result (λ next. (M : Live)
            → Remembers M (live_now (stands self)) turned.old
            → Remembers M (live_now (stands next)) turned.new) }
        ensures cost { OnOk result (steps.new ≤ steps.old) };
}
