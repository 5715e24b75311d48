// What the steps leave for later.
ghost use Rattle.std.specs.Prelude.{◌≡◌, ◌++◌, ◌∷◌, [], ℕ, List, IfOk};
ghost use Rattle.std.specs.Option.{option_copied};
ghost use Rattle.reg_effect.specs.Member.{member};
ghost use Rattle.reg_base.specs.declared.privilege.Privilege.{Privilege};
ghost use Rattle.reg_effect.specs.Turned.{turns};
ghost use Rattle.reg_facts.specs.Consumers.{consumer_place};
ghost use Rattle.reg_log.specs.Places.{place_of};
ghost use Rattle.reg_pit.specs.Grants.{has_grant};
ghost use Rattle.reg_pit.specs.Past.{assigns_at, was_member, was_granted, wheel_at, NotedBy};
ghost use Rattle.reg_priv.specs.Grants.{grants};
ghost use Rattle.reg_priv.specs.May.{wheel};
ghost use Rattle.reg_terms.specs.declared.kinds.Holder.{Holder};
ghost use Rattle.reg_terms.specs.declared.kinds.Object.{Object};
ghost use Rattle.reg_audit.specs.Assigning.{assign_changes, MayNote};
ghost use Rattle.reg_audit.specs.Definitions.{definition_in};
ghost use Rattle.reg_audit.specs.Lines.{log_of};
ghost use Rattle.reg_audit.specs.Lives.{life_of, gone_of, gone_name, gone_named};
ghost use Rattle.reg_audit.specs.Notes.{acted_notes, notes_of};
ghost use Rattle.reg_audit.specs.Steps.{Step, FollowsOn, consumers_by, facts_by, live_by};
ghost use Rattle.reg_audit.specs.Steps.{last_moment};
ghost use Rattle.reg_priv.specs.Touched.{KnowsTouched};

use crate::Notes;
use crate::noting::note_past;
use crate::records::Records;
use reg_base::{AttrDefId, AttrId, GroupId, Moment, SubjectId, Text};
use reg_facts::Facts;
use reg_log::{ChangeLog, Places};
use reg_pit::Past;
use reg_terms::Object;
use std::alloc::{AllocError, Global};

/// What the steps of a registry leave for later: the change log, the past of effective memberships,
/// of grants, of assignments and of the wheel group, when objects were made and went, the last
/// names of what is gone, the definitions of attributes, and the places of consumers.
#[derive(Drop)]
pub struct Audit {
    records: Records,
    past: Past,
}

impl Audit {
    ghost use Rattle.reg_audit.specs.Audit.{IsAudit};

    /// No step yet: only the root folder was made. Takes no memory.
    pub fn start(alloc: Global) -> Audit
        ensures { IsAudit [] result }
    {
        Audit {
            records: Records::start(alloc),
            past: Past::start(alloc),
        }
    }

    /// One step more, by what it changes itself and what rules do after that, the memberships that
    /// it turns, the facts after it, and the objects whose grants it may change. Each grant that it
    /// adds, begins or takes away costs a look at each folder above its object, and an inherit a
    /// look at each above each of these. Where it makes, renames or moves an object, or one goes,
    /// each of these costs what was ever noted of it and what holds on it. Out of memory all is
    /// given up.
    pub fn note(
        self,
        alloc: Global,
        notes: Notes,
        turned: &[(GroupId, SubjectId, bool)],
        facts: &Facts,
        touched: &[Object],
    ) -> Result<Audit, AllocError>
        requires { MayNote notes.at notes.assigns self.past }
        ensures { IfOk result (λ audit. (steps : List Step) (step : Step) → IsAudit steps self
            → FollowsOn steps step → notes
            ≡ acted_notes (notes_of step.at step.before step.events) step.actions
            → turned.now ≡ turns step.live step.live_after → facts.now ≡ step.after
            → KnowsTouched step.before step.after touched.now
            → IsAudit (steps ++ step ∷ []) audit) }
    {
        reg_effect::law_turns();
        let Audit { mut records, past } = self;
        records.note(alloc, &notes, turned)?;
        let at = notes.at;
        let others = notes.changes_others;
        let (assigns, changed) = notes.into_changes();
        let past = note_past(
            alloc, past, turned, facts, touched, &changed, others, assigns, at,
        )?;
        Ok(Audit { records, past })
    }

    /// The next step may be noted: nothing was noted later than its moment, and each assignment
    /// that it makes has a later id than all that were noted. It does nothing.
    pub fn law_follows(&self)
        ensures { (steps : List Step) (step : Step) → IsAudit steps self.now → FollowsOn steps step
            → MayNote step.at (assign_changes step.events) self.now.past }
    {
        self.past.law_noted_later();
    }

    /// The change log. Takes no memory.
    pub fn log(&self) -> &ChangeLog
        ensures { (steps : List Step) → IsAudit steps self.now → result.now ≡ log_of steps }
    {
        &self.records.log
    }

    /// How far each consumer has read. Takes no memory.
    pub fn places(&self) -> &Places
        ensures { (steps : List Step) → IsAudit steps self.now → (name : List ℕ)
            → place_of result.now name ≡ consumer_place name (consumers_by steps) }
    {
        &self.records.places
    }

    /// Who was an effective member at each moment, who held which privilege on what, which was the
    /// wheel group, and what was assigned. Takes no memory.
    pub fn past(&self) -> &Past
        ensures members { (steps : List Step) → IsAudit steps self.now → (t g s : ℕ)
            → was_member result.now g s t ≡ member (live_by t steps) g s }
        ensures granted { (steps : List Step) → IsAudit steps self.now
            → (t : ℕ) (o : Object) (p : Privilege) (h : Holder)
            → was_granted result.now o p h t ≡ has_grant (grants o (facts_by t steps)) p h }
        ensures wheel { (steps : List Step) → IsAudit steps self.now → (t : ℕ)
            → wheel_at result.now t ≡ wheel (facts_by t steps) }
        ensures assigns { (steps : List Step) → IsAudit steps self.now → (t : ℕ)
            → assigns_at result.now t ≡ (facts_by t steps).assigns }
        ensures noted { (steps : List Step) → IsAudit steps self.now
            → NotedBy (last_moment steps) result.now }
    {
        &self.past
    }

    /// When an object was made and when it went: none if it was never made. The root folder was
    /// made at 0. Takes no memory.
    pub fn life(&self, object: Object) -> Option<(Moment, Option<Moment>)>
        ensures { (steps : List Step) → IsAudit steps self.now → result ≡ life_of object steps }
    {
        self.records.lives.life(&object)
    }

    /// The definition of which an attribute was made: none if it was never made. Takes no memory.
    pub fn def_of(&self, attribute: AttrId) -> Option<AttrDefId>
        ensures { (steps : List Step) → IsAudit steps self.now
            → result ≡ definition_in attribute steps }
    {
        self.records.definitions.of(attribute)
    }

    /// The groups that are gone, in the order in which they went. Takes no memory.
    pub fn gone(&self) -> &[GroupId]
        ensures { (steps : List Step) → IsAudit steps self.now → result.now ≡ gone_of steps }
    {
        self.records.departed.groups()
    }

    /// The name that an object had when it went: none if it isn't gone. Takes no memory.
    pub fn gone_name(&self, object: Object) -> Option<&Text>
        ensures { (steps : List Step) → IsAudit steps self.now
            → option_copied result ≡ gone_name object steps }
    {
        self.records.departed.name(object)
    }

    /// The group that went last with this name. Takes no memory.
    pub fn gone_named(&self, name: &str) -> Option<GroupId>
        ensures { (steps : List Step) → IsAudit steps self.now
            → result ≡ gone_named name.now steps }
    {
        self.records.departed.named(name)
    }
}
