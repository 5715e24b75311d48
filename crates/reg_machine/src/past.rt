// What a machine tells of the past.
ghost use Rattle.std.specs.Prelude.{◌≡◌, ◌≤◌, ◌<◌, ◌+◌, ◌*◌, ◌^◌, ◌++◌, ◌==◌, ℕ, List, length};
ghost use Rattle.std.specs.Prelude.{true, None, Some, IfOk};
ghost use Rattle.std.specs.List.{list_any, slice_get, AllByRecursion};
ghost use Rattle.std.specs.List.Sorted.{IsStrictlySortedBy};
ghost use Rattle.std.specs.Option.{option_copied};
ghost use Rattle.std.specs.Ordering.{nat_cmp};
ghost use Rattle.reg_base.specs.declared.privilege.Privilege.{Privilege};
ghost use Rattle.reg_terms.specs.declared.command.Stamped.{Stamped};
ghost use Rattle.reg_terms.specs.Kinds.{same_object};
ghost use Rattle.reg_terms.specs.declared.kinds.Holder.{Holder};
ghost use Rattle.reg_terms.specs.declared.kinds.Object.{Object};
ghost use Rattle.reg_terms.specs.declared.kinds.Object.TheVariants.{Folder};
ghost use Rattle.reg_terms.specs.declared.rows.AttributeRow.{AttributeRow};
ghost use Rattle.reg_facts.specs.Attributes.{assigns_on, attribute_row};
ghost use Rattle.reg_facts.specs.Consumers.{consumer_place};
ghost use Rattle.reg_facts.specs.Lists.{root};
ghost use Rattle.reg_facts.specs.Sound.{has_subject, is_named};
ghost use Rattle.reg_table.specs.Keyed.{in_order};
ghost use Rattle.reg_log.specs.Places.{place_of};
ghost use Rattle.reg_pit.specs.Members.{Lists};
ghost use Rattle.reg_pit.specs.Owned.{rows_at};
ghost use Rattle.reg_pit.specs.Spans.{ends_after};
ghost use Rattle.reg_priv.specs.Holders.{holders};
ghost use Rattle.reg_priv.specs.May.{wheel};
ghost use Rattle.reg_audit.specs.Lives.{gone_name};
ghost use Rattle.reg_machine.specs.GrantDates.{AreOpened};
ghost use Rattle.reg_machine.specs.History.{facts, now_facts};
ghost use Rattle.reg_machine.specs.Invariant.{IsFrom};
ghost use Rattle.reg_machine.specs.Standing.{lives_at, stands};
ghost use Rattle.reg_machine.specs.Past.{all_spans, def_of, end_of, gone, gone_by_id, gone_named};
ghost use Rattle.reg_machine.specs.Past.{grant_spans, group_end, last_name, life, log};
ghost use Rattle.reg_machine.specs.Past.{moments_of, NeverFall};
ghost use Rattle.reg_machine.specs.Past.{present_name, spans, steps, was_granted, was_member};

use crate::Machine;
use reg_base::{AttrDefId, AttrId, GroupId, Moment, Privilege, Steps, SubjectId, Text};
use reg_effect::Kept;
use reg_facts::Facts;
use reg_log::{ChangeLog, Places};
use reg_names::name_of;
use reg_pit::AssignedPast;
use reg_terms::{AssignRow, Holder, Object};
use std::alloc::{AllocError, Global};
use std::collections::BTreeSet;
use std::sync::ledger::Ledger;

/// Whether an object is the root folder.
fn is_root(object: &Object) -> bool
    ensures { result ≡ same_object object.now (Folder root) }
{
    match object {
        Object::Folder(id) => id.number() == 0,
        Object::Group(_) | Object::Def(_) | Object::Attr(_) | Object::Subject(_) => false,
    }
}

/// Whether an object has a name: the root, and what is placed.
#[tactic(auto, using(crate::proofs::Placing::named_some, crate::proofs::Placing::named_none))]
fn is_named(facts: &Facts, object: &Object) -> bool
    ensures { result ≡ is_named object.now facts.now }
{
    match facts.place_of(object) {
        Some(_) => true,
        None => is_root(object),
    }
}

/// The name of what stands, or a subject's text; empty where it doesn't stand.
pub fn present_name(alloc: Global, facts: &Facts, object: &Object) -> Result<Text, AllocError>
    ensures { IfOk result (λ name. name ≡ present_name object.now facts.now) }
{
    if let Object::Subject(id) = object {
        return match facts.subject(*id) {
            Some(subject) => subject.text.copy(alloc),
            None => Text::new(alloc, ""),
        };
    }
    if is_named(facts, object) {
        return name_of(alloc, facts, object);
    }
    Text::new(alloc, "")
}

/// The name that an object had when it went, if it is gone, and else its present one.
fn told_name(
    alloc: Global,
    gone: Option<&Text>,
    facts: &Facts,
    object: &Object,
) -> Result<Text, AllocError>
    ensures { IfOk result (λ name. name
        ≡ elim (option_copied gone.entry)
        [ None ↦ present_name object.now facts.now | Some x ↦ x ]) }
{
    match gone {
        Some(name) => name.copy(alloc),
        None => present_name(alloc, facts, object),
    }
}

/// Whether an end, if there is one, is later than a moment.
fn ends_after(end: Option<Moment>, t: Moment) -> bool
    ensures { result ≡ ends_after t end }
{
    match end {
        Some(end) => t < end,
        None => true,
    }
}

/// Whether an object of this life stood at a moment.
fn lives_at(life: Option<(Moment, Option<Moment>)>, t: Moment) -> bool
    ensures { result ≡ lives_at t life }
{
    match life {
        Some((made, gone)) => made <= t && ends_after(gone, t),
        None => false,
    }
}

/// The moment at which what has this life went, if it is gone.
fn end_of(life: Option<(Moment, Option<Moment>)>) -> Option<Moment>
    ensures { result ≡ end_of life }
{
    match life {
        Some((_, end)) => end,
        None => None,
    }
}

/// The groups of a list by id.
fn in_order(alloc: Global, groups: &[GroupId]) -> Result<BTreeSet<GroupId>, AllocError>
    ensures { IfOk result (λ ordered. ordered.keys ≡ in_order nat_cmp groups.now) }
{
    let mut ordered = BTreeSet::new(alloc);
    for group in groups {
        ordered.insert(*group)?;
    }
    Ok(ordered)
}

impl<K: Kept> Machine<K> {
    /// The change log up to the clock: what each accepted command and each date changed, in order.
    /// An entry's number is its place, from 1. Takes no memory.
    pub fn log(&self) -> &ChangeLog
        ensures { result.now ≡ log self.now.history self.now.clock }
    {
        self.recorded.audit().log()
    }

    /// The moments of the log never fall, and none is later than the clock. It does nothing.
    pub fn law_log_moments(&self)
        ensures ordered { NeverFall (moments_of (log self.now.history self.now.clock)) }
        ensures by_clock { AllByRecursion (λ m. m ≤ self.now.clock)
            (moments_of (log self.now.history self.now.clock)) }
    {
        let _ = &self.recorded;
    }

    /// How far each consumer of the change log has read. Takes no memory.
    pub fn places(&self) -> &Places
        ensures { (name : List ℕ)
            → place_of result.now name ≡ consumer_place name (now_facts self.now).consumers }
    {
        self.recorded.audit().places()
    }

    /// Whether a person was an effective member of a group at a moment up to the clock. A step is
    /// one interval looked at. Takes no memory.
    pub fn was_member<L: Ledger>(
        &self,
        group: GroupId,
        subject: SubjectId,
        t: Moment,
        steps: &mut Steps<L>,
    ) -> bool
        requires { t ≤ self.now.clock }
        ensures value { result ≡ was_member self.now.history t group subject }
        ensures looks { steps.new ≤ steps.old + 1 }
        ensures cost { (n : ℕ) → steps.new ≡ steps.old + n
            → 2 ^ n ≤ 2 * length (spans self.now.history self.now.clock group subject) + 1 }
    {
        let past = self.recorded.audit().past();
        past.law_noted_later();
        past.law_spans();
        past.was_member(group, subject, t, steps)
    }

    /// Who was an effective member of a group at a moment up to the clock, by id. Costs what was
    /// ever noted of the group.
    pub fn members_at(&self, group: GroupId, t: Moment) -> Result<Vec<SubjectId>, AllocError>
        requires { t ≤ self.now.clock }
        ensures { IfOk result (λ persons.
            Lists (λ s. was_member self.now.history t group s) persons.items) }
    {
        self.recorded.audit().past().members_at(group, t)
    }

    /// The groups of which a person was an effective member at a moment up to the clock, by id.
    /// Costs what was ever noted of the person.
    pub fn groups_at(&self, subject: SubjectId, t: Moment) -> Result<Vec<GroupId>, AllocError>
        requires { t ≤ self.now.clock }
        ensures { IfOk result (λ groups.
            Lists (λ g. was_member self.now.history t g subject) groups.items) }
    {
        self.recorded.audit().past().groups_at(subject, t)
    }

    /// The intervals up to the clock in which a person was an effective member of a group: each
    /// from the moment at which it began until just before the one at which it ended, none empty,
    /// no two touching, in order.
    pub fn spans(
        &self,
        group: GroupId,
        subject: SubjectId,
    ) -> Result<Vec<(Moment, Option<Moment>)>, AllocError>
        ensures { IfOk result (λ rows. rows.items
            ≡ spans self.now.history self.now.clock group subject) }
    {
        let past = self.recorded.audit().past();
        past.law_noted_later();
        past.spans(group, subject)
    }

    /// All those intervals of a group, by person and then by their start. Costs what was ever noted
    /// of the group.
    pub fn history_of(
        &self,
        group: GroupId,
    ) -> Result<Vec<(SubjectId, Moment, Option<Moment>)>, AllocError>
        ensures { IfOk result (λ rows. (ids : List ℕ) → IsStrictlySortedBy nat_cmp ids
            → ((t s : ℕ) → t ≤ self.now.clock → was_member self.now.history t group s ≡ true
            → list_any (λ x. x == s) ids ≡ true)
            → rows.items ≡ all_spans self.now.history self.now.clock group ids) }
    {
        let past = self.recorded.audit().past();
        past.law_noted_later();
        past.law_stays();
        past.law_spans();
        past.history_of(group)
    }

    /// Whether a holder had a privilege on an object, by a grant that was on or an inherit, at a
    /// moment up to the clock. A step is one interval looked at. Takes no memory.
    pub fn was_granted<L: Ledger>(
        &self,
        object: Object,
        privilege: Privilege,
        holder: Holder,
        t: Moment,
        steps: &mut Steps<L>,
    ) -> bool
        requires { t ≤ self.now.clock }
        ensures value { result ≡ was_granted self.now.history t object privilege holder }
        ensures looks { steps.new ≤ steps.old + 1 }
        ensures cost { (n : ℕ) → steps.new ≡ steps.old + n
            → 2 ^ n ≤ 2 * length (grant_spans self.now.history self.now.clock object privilege
            holder) + 1 }
    {
        let past = self.recorded.audit().past();
        past.law_noted_later();
        past.law_grant_spans();
        past.was_granted(object, privilege, holder, t, steps)
    }

    /// The grants on an object at a moment up to the clock, direct ones that were on and inherited
    /// ones, each pair once: by the privilege's code, then everyone, persons by id, groups by id.
    /// Costs what was ever noted of the object. The only error is out of memory.
    pub fn grants_at(
        &self,
        object: Object,
        t: Moment,
    ) -> Result<Vec<(Privilege, Holder)>, AllocError>
        requires { t ≤ self.now.clock }
        ensures { IfOk result (λ found. found.items ≡ holders object (facts self.now.history t)) }
    {
        let past = self.recorded.audit().past();
        let found = past.grants_at(object, t)?;
        Ok(found)
    }

    /// The intervals up to the clock in which a holder had a privilege on an object, by a grant
    /// that was on or an inherit: in order, none empty, no two touching. The only error is out of
    /// memory.
    pub fn granted_spans(
        &self,
        object: Object,
        privilege: Privilege,
        holder: Holder,
    ) -> Result<Vec<(Moment, Option<Moment>)>, AllocError>
        ensures { IfOk result (λ rows. rows.items
            ≡ grant_spans self.now.history self.now.clock object privilege holder) }
    {
        let past = self.recorded.audit().past();
        past.law_noted_later();
        past.law_grant_spans();
        let rows = past.grant_spans(object, privilege, holder)?;
        Ok(rows)
    }

    /// The wheel group at a moment up to the clock: the group that was named `etc:sysadmingroup`
    /// then. Takes no memory.
    pub fn wheel_at(&self, t: Moment) -> Option<GroupId>
        requires { t ≤ self.now.clock }
        ensures { result ≡ wheel (facts self.now.history t) }
    {
        let past = self.recorded.audit().past();
        past.wheel_at(t)
    }

    /// The assignments to an owner at a moment up to the clock, by id, with the values that stood
    /// then, in the order in which they were added. Costs what was ever assigned to the owner. The
    /// only error is out of memory.
    pub fn assigns_at(&self, owner: Object, t: Moment) -> Result<Vec<AssignRow>, AllocError>
        requires { t ≤ self.now.clock }
        ensures { IfOk result (λ rows. rows.items
            ≡ assigns_on owner (facts self.now.history t).assigns) }
    {
        let past = self.recorded.audit().past();
        let rows = past.assigns_at(owner, t)?;
        Ok(rows)
    }

    /// All that was ever assigned to an owner: what was assigned to it at each moment up to the
    /// clock. Costs what was ever assigned to it. The only error is out of memory.
    pub fn assigned_past(&self, owner: Object) -> Result<AssignedPast, AllocError>
        ensures { IfOk result (λ past. (t : ℕ) → t ≤ self.now.clock → rows_at past t
            ≡ assigns_on owner (facts self.now.history t).assigns) }
    {
        let past = self.recorded.audit().past();
        let assigned = past.assigned_past(owner)?;
        Ok(assigned)
    }

    /// The moments up to the clock at which what is assigned to an owner may have changed, in
    /// order, the first of them 0: between two of them it stayed. Costs what was ever assigned to
    /// the owner, sorted. The only error is out of memory.
    pub fn assign_moments(&self, owner: Object) -> Result<Vec<Moment>, AllocError>
        ensures first { IfOk result (λ ms. slice_get ms.items 0 ≡ Some 0) }
        ensures ascending { IfOk result (λ ms. IsStrictlySortedBy nat_cmp ms.items) }
        ensures by_clock { IfOk result (λ ms. AllByRecursion (λ m. m ≤ self.now.clock) ms.items) }
        ensures constant { IfOk result (λ ms. (u t : ℕ) → u ≤ t → t ≤ self.now.clock
            → AllByRecursion (λ m. u < m → m ≤ t → ⊥) ms.items
            → assigns_on owner (facts self.now.history t).assigns
            ≡ assigns_on owner (facts self.now.history u).assigns) }
    {
        let past = self.recorded.audit().past();
        past.law_noted_later();
        let moments = past.assign_moments(owner)?;
        Ok(moments)
    }

    /// The definition of which an attribute was made. None exactly where the attribute was never
    /// made. Takes no memory.
    pub fn def_of(&self, attribute: AttrId) -> Option<AttrDefId>
        ensures { result ≡ def_of self.now.history self.now.clock attribute }
    {
        self.recorded.audit().def_of(attribute)
    }

    /// Who was a member of a group at a moment up to the clock stands, and the group was made; what
    /// stood before a moment, no command changes from that moment on; and an object stood at a
    /// moment up to the clock exactly where its life has the moment, and an attribute that stood
    /// then was of the definition of which it was made. It does nothing.
    pub fn law_past(&self)
        ensures stays { (before after : List Stamped) (c t : ℕ) → self.now.history ≡ before ++ after
            → AllByRecursion (IsFrom c) after → t < c → facts self.now.history t ≡ facts before t }
        ensures known { (t g s : ℕ) → t ≤ self.now.clock → was_member self.now.history t g s ≡ true
            → has_subject s (now_facts self.now).subjects ≡ true }
        ensures made { (t g s : ℕ) → t ≤ self.now.clock → was_member self.now.history t g s ≡ true
            → g ≤ (now_facts self.now).made.groups }
        ensures defined { (t a : ℕ) (row : AttributeRow) → t ≤ self.now.clock
            → attribute_row a (facts self.now.history t).attributes ≡ Some row
            → def_of self.now.history self.now.clock a ≡ Some row.definition }
        ensures stood { (o : Object) (t : ℕ) → t ≤ self.now.clock
            → stands o (facts self.now.history t)
            ≡ lives_at t (life self.now.history self.now.clock o) }
    {
        let _ = &self.recorded;
    }

    /// At each moment up to the clock a grant that stands and hasn't begun begins later, and each
    /// ends later, if it ends: so one that is on then has begun and hasn't ended. It does nothing.
    pub fn law_grants_open(&self)
        ensures { AreOpened self.now.history self.now.clock }
    {
        let _ = &self.recorded;
    }

    /// Over two machines, of which one's history goes on from the other's by commands from the
    /// other's clock on: who was a member, who held what and what was assigned is the same at every
    /// moment before that clock. It does nothing.
    pub fn law_goes_on(&self, later: &Machine<K>)
        ensures members { (after : List Stamped) (t g s : ℕ)
            → later.now.history ≡ self.now.history ++ after
            → AllByRecursion (IsFrom self.now.clock) after → t < self.now.clock
            → was_member later.now.history t g s ≡ was_member self.now.history t g s }
        ensures granted { (after : List Stamped) (t : ℕ) (o : Object) (p : Privilege) (h : Holder)
            → later.now.history ≡ self.now.history ++ after
            → AllByRecursion (IsFrom self.now.clock) after → t < self.now.clock
            → was_granted later.now.history t o p h ≡ was_granted self.now.history t o p h }
        ensures assigned { (after : List Stamped) (t : ℕ) (o : Object)
            → later.now.history ≡ self.now.history ++ after
            → AllByRecursion (IsFrom self.now.clock) after → t < self.now.clock
            → assigns_on o (facts later.now.history t).assigns
            ≡ assigns_on o (facts self.now.history t).assigns }
        ensures stays { (after : List Stamped) (t : ℕ)
            → later.now.history ≡ self.now.history ++ after
            → AllByRecursion (IsFrom self.now.clock) after → t < self.now.clock
            → facts later.now.history t ≡ facts self.now.history t }
    {
        let _ = &later.recorded;
    }

    /// When an object was made, and when it went, if it is gone. None exactly where it was never
    /// made; the root folder was made at 0. Takes no memory.
    pub fn life(&self, object: Object) -> Option<(Moment, Option<Moment>)>
        ensures { result ≡ life self.now.history self.now.clock object }
    {
        self.recorded.audit().life(object)
    }

    /// Whether an object stood at a moment up to the clock: it was made by then, and hadn't gone.
    /// Takes no memory.
    pub fn stood_at(&self, object: Object, t: Moment) -> bool
        requires { t ≤ self.now.clock }
        ensures { result ≡ stands object (facts self.now.history t) }
    {
        self.law_past();
        lives_at(self.life(object), t)
    }

    /// The groups that are gone, in the order in which they went. Takes no memory.
    pub fn gone(&self) -> &[GroupId]
        ensures { result.now ≡ gone self.now.history self.now.clock }
    {
        self.recorded.audit().gone()
    }

    /// A group with the moment at which it went, if it is gone. Takes no memory.
    fn group_end(&self, group: GroupId) -> Option<(GroupId, Moment)>
        ensures { result ≡ group_end self.now.history self.now.clock group }
    {
        let at = end_of(self.life(Object::Group(group)))?;
        Some((group, at))
    }

    /// The groups that are gone, by id, each with the moment at which it went. Costs what is gone.
    /// The only error is out of memory.
    #[tactic(auto, unfolding(crate::specs::Past::gone_by_id))]
    pub fn gone_by_id(&self, alloc: Global) -> Result<Vec<(GroupId, Moment)>, AllocError>
        ensures { IfOk result (λ rows. rows.items ≡ gone_by_id self.now.history self.now.clock) }
    {
        let groups = in_order(alloc, self.gone())?;
        let mut rows = Vec::new(alloc);
        for group in groups.iter() {
            if let Some(row) = self.group_end(*group) {
                rows.push(row)?;
            }
        }
        Ok(rows)
    }

    /// The group that went last of those that are gone and had this name last. Takes no memory.
    pub fn gone_named(&self, name: &str) -> Option<GroupId>
        ensures { result ≡ gone_named name.now self.now.history self.now.clock }
    {
        self.recorded.audit().gone_named(name)
    }

    /// An object's present name, or the one that it had when it went; a subject's text; empty for
    /// what was never made. The only error is out of memory.
    #[tactic(auto, unfolding(crate::specs::Past::last_name))]
    pub fn last_name(&self, alloc: Global, object: Object) -> Result<Text, AllocError>
        ensures { IfOk result (λ name. name ≡ last_name self.now.history self.now.clock object) }
    {
        told_name(alloc, self.gone_name(object), self.facts(), &object)
    }

    /// The name that an object had when it went, if it is gone.
    fn gone_name(&self, object: Object) -> Option<&Text>
        ensures { option_copied result ≡ gone_name object (steps self.now.history self.now.clock) }
    {
        self.recorded.audit().gone_name(object)
    }
}
