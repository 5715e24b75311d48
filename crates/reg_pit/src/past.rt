// What was the case at each moment.
ghost use Rattle.std.specs.Prelude.{◌≡◌, ◌≤◌, ◌<◌, ◌+◌, ◌*◌, ◌^◌, ◌==◌, ◌&&◌, Bool, List, []};
ghost use Rattle.std.specs.Prelude.{ℕ, Some, None, true, false, length, filter, nat_le, IfOk};
ghost use Rattle.std.specs.Prelude.{if◌then◌else◌};
ghost use Rattle.std.specs.List.{list_any, slice_get, AllByRecursion};
ghost use Rattle.std.specs.Ordering.{nat_cmp};
ghost use Rattle.std.specs.List.Sorted.{IsStrictlySortedBy};
ghost use Rattle.reg_base.specs.declared.privilege.Privilege.{Privilege};
ghost use Rattle.reg_terms.specs.Kinds.{same_object};
ghost use Rattle.reg_terms.specs.declared.kinds.Object.{Object};
ghost use Rattle.reg_terms.specs.declared.kinds.Holder.{Holder};
ghost use Rattle.reg_terms.specs.declared.rows.AssignRow.{AssignRow};
ghost use Rattle.reg_pit.specs.Spans.{AreSpansOf, looked_at, spans_until};
ghost use Rattle.reg_pit.specs.Members.{Lists};
ghost use Rattle.reg_pit.specs.Grants.{has_grant, held_cmp, same_held};
ghost use Rattle.reg_pit.specs.Assigns.{changed, last_after};
ghost use Rattle.reg_pit.specs.Owned.{rows_at};

use crate::AssignChange;
use crate::assigned_past::AssignedPast;
use crate::assigns::Assigns;
use crate::grants::Grants;
use crate::memberships::Memberships;
use crate::wheel::Wheel;
use reg_base::{GroupId, Moment, Privilege, Steps, SubjectId};
use reg_terms::{AssignRow, Holder, Object};
use std::alloc::{AllocError, Global};
use std::sync::ledger::Ledger;

/// What was the case at each moment, noted as it changed. `was_member` and `was_granted` tick once
/// for each interval that they look at; all other calls count nothing.
#[derive(Drop)]
pub struct Past {
    memberships: Memberships,
    grants: Grants,
    wheel: Wheel,
    assigns: Assigns,
}

impl Past {
    ghost use Rattle.reg_pit.specs.Past.{was_member, member_spans, all_member_spans, was_granted};
    ghost use Rattle.reg_pit.specs.Past.{grant_spans, wheel_at, assigns_at, last_assign};
    ghost use Rattle.reg_pit.specs.Past.{IsNewAssign, NotedBy, KeepsMembers, KeepsGrants};
    ghost use Rattle.reg_pit.specs.Past.{KeepsWheel, KeepsAssigns};

    /// Nothing was ever the case. Takes no memory.
    pub fn start(alloc: Global) -> Past
        ensures members { (g s t : ℕ) → was_member result g s t ≡ false }
        ensures grants { (o : Object) (p : Privilege) (h : Holder) (t : ℕ)
            → was_granted result o p h t ≡ false }
        ensures wheel { (t : ℕ) → wheel_at result t ≡ None }
        ensures assigns { (t : ℕ) → assigns_at result t ≡ [] }
        ensures no_assign { last_assign result ≡ 0 }
        ensures last { (at : ℕ) → NotedBy at result }
    {
        Past {
            memberships: Memberships::new(alloc),
            grants: Grants::new(alloc),
            wheel: Wheel::new(alloc),
            assigns: Assigns::new(alloc),
        }
    }

    /// From a moment on a person is a member of a group, or isn't; nothing was noted later. What
    /// was so before the moment stays so. Out of memory the past is given up.
    pub fn note_member(
        self,
        g: GroupId,
        s: SubjectId,
        on: bool,
        at: Moment,
    ) -> Result<Past, AllocError>
        requires { NotedBy at self }
        ensures noted { IfOk result (λ past. (x y t : ℕ)
            → was_member past x y t ≡ (if ((x == g) && (y == s)) && nat_le at t then on
            else was_member self x y t)) }
        ensures grants { IfOk result (λ past. KeepsGrants self past) }
        ensures wheel { IfOk result (λ past. KeepsWheel self past) }
        ensures assigns { IfOk result (λ past. KeepsAssigns self past) }
        ensures last { IfOk result (λ past. NotedBy at past) }
    {
        let Past {
            memberships,
            grants,
            wheel,
            assigns,
        } = self;
        let memberships = memberships.note(g, s, on, at)?;
        Ok(Past {
            memberships,
            grants,
            wheel,
            assigns,
        })
    }

    /// From a moment on the privileges held on an object are exactly these; nothing was noted
    /// later. What was so before the moment stays so. Out of memory the past is given up. Costs
    /// what was ever noted of the object.
    pub fn note_grants(
        self,
        object: Object,
        grants: &[(Privilege, Holder)],
        at: Moment,
    ) -> Result<Past, AllocError>
        requires { NotedBy at self }
        ensures noted { IfOk result (λ past. (o : Object) (p : Privilege) (h : Holder) (t : ℕ)
            → was_granted past o p h t
            ≡ (if same_object o object && nat_le at t then has_grant grants.now p h
            else was_granted self o p h t)) }
        ensures members { IfOk result (λ past. KeepsMembers self past) }
        ensures wheel { IfOk result (λ past. KeepsWheel self past) }
        ensures assigns { IfOk result (λ past. KeepsAssigns self past) }
        ensures last { IfOk result (λ past. NotedBy at past) }
    {
        let Past {
            memberships,
            grants: granted,
            wheel,
            assigns,
        } = self;
        let granted = granted.note(object, grants, at)?;
        Ok(Past {
            memberships,
            grants: granted,
            wheel,
            assigns,
        })
    }

    /// From a moment on a holder has a privilege on an object, or hasn't; nothing was noted later.
    /// What was so before the moment stays so, and all other privileges on the object stay as they
    /// were. Out of memory the past is given up. Costs two looks, whatever else was ever noted.
    pub fn note_grant(
        self,
        object: Object,
        privilege: Privilege,
        holder: Holder,
        on: bool,
        at: Moment,
    ) -> Result<Past, AllocError>
        requires { NotedBy at self }
        ensures noted { IfOk result (λ past. (o : Object) (p : Privilege) (h : Holder) (t : ℕ)
            → was_granted past o p h t
            ≡ (if (same_object o object && same_held (privilege, holder) (p, h)) && nat_le at t
            then on else was_granted self o p h t)) }
        ensures members { IfOk result (λ past. KeepsMembers self past) }
        ensures wheel { IfOk result (λ past. KeepsWheel self past) }
        ensures assigns { IfOk result (λ past. KeepsAssigns self past) }
        ensures last { IfOk result (λ past. NotedBy at past) }
    {
        let Past {
            memberships,
            grants,
            wheel,
            assigns,
        } = self;
        let grants = grants.set(object, privilege, holder, on, at)?;
        Ok(Past {
            memberships,
            grants,
            wheel,
            assigns,
        })
    }

    /// From a moment on the wheel group is this, or there is none; nothing was noted later. What
    /// was so before the moment stays so. Out of memory the past is given up.
    pub fn note_wheel(self, wheel: Option<GroupId>, at: Moment) -> Result<Past, AllocError>
        requires { NotedBy at self }
        ensures noted { IfOk result (λ past. (t : ℕ)
            → wheel_at past t ≡ (if nat_le at t then wheel else wheel_at self t)) }
        ensures members { IfOk result (λ past. KeepsMembers self past) }
        ensures grants { IfOk result (λ past. KeepsGrants self past) }
        ensures assigns { IfOk result (λ past. KeepsAssigns self past) }
        ensures last { IfOk result (λ past. NotedBy at past) }
    {
        let Past {
            memberships,
            grants,
            wheel: notes,
            assigns,
        } = self;
        let wheel = notes.note(wheel, at)?;
        Ok(Past {
            memberships,
            grants,
            wheel,
            assigns,
        })
    }

    /// From a moment on the assignments are those after a change; nothing was noted later, and an
    /// assignment that is made has a later id than all before. What was so before the moment stays
    /// so. Out of memory the past is given up. Costs what was ever assigned to an owner that goes,
    /// and of a value that goes those that stand in its assignment.
    pub fn note_assign(self, change: AssignChange, at: Moment) -> Result<Past, AllocError>
        requires noted { NotedBy at self }
        requires new { IsNewAssign self change }
        ensures noted { IfOk result (λ past. (t : ℕ)
            → assigns_at past t ≡ (if nat_le at t then changed change (assigns_at self t)
            else assigns_at self t)) }
        ensures greatest { IfOk result (λ past. last_assign past
            ≡ last_after change (last_assign self)) }
        ensures members { IfOk result (λ past. KeepsMembers self past) }
        ensures grants { IfOk result (λ past. KeepsGrants self past) }
        ensures wheel { IfOk result (λ past. KeepsWheel self past) }
        ensures last { IfOk result (λ past. NotedBy at past) }
    {
        let Past {
            memberships,
            grants,
            wheel,
            assigns,
        } = self;
        let assigns = assigns.note(change, at)?;
        Ok(Past {
            memberships,
            grants,
            wheel,
            assigns,
        })
    }

    /// Whether a person was an effective member of a group at a moment. A step is one interval
    /// looked at. Takes no memory.
    pub fn was_member<L: Ledger>(
        &self,
        g: GroupId,
        s: SubjectId,
        t: Moment,
        steps: &mut Steps<L>,
    ) -> bool
        ensures value { result ≡ was_member self.now g s t }
        ensures ticks { steps.new ≡ steps.old + looked_at (member_spans self.now g s) t }
        ensures looks { steps.new ≤ steps.old + 1 }
        ensures cost { (n : ℕ) → steps.new ≡ steps.old + n
            → 2 ^ n ≤ 2 * length (member_spans self.now g s) + 1 }
    {
        self.memberships.at(g, s, t, steps)
    }

    /// The intervals in which a person was a member of a group, in order: the one list that stands
    /// for these moments. Where a test tells when the person was a member, up to the last note,
    /// they are what the test gives moment by moment.
    pub fn spans(
        &self,
        g: GroupId,
        s: SubjectId,
    ) -> Result<Vec<(Moment, Option<Moment>)>, AllocError>
        ensures value { IfOk result (λ spans. spans.items ≡ member_spans self.now g s) }
        ensures until { IfOk result (λ spans. (test : ℕ → Bool) (now : ℕ) → NotedBy now self.now
            → ((t : ℕ) → t ≤ now → was_member self.now g s t ≡ test t)
            → spans.items ≡ spans_until test now) }
        ensures one { IfOk result (λ spans. (now : ℕ) → NotedBy now self.now
            → AreSpansOf (was_member self.now g s) now spans.items) }
    {
        let spans = self.memberships.spans(g, s)?;
        Ok(spans)
    }

    /// All intervals of all persons who were ever members of a group, each with its person, by
    /// person and then start. Costs what was ever noted of the group.
    pub fn history_of(
        &self,
        g: GroupId,
    ) -> Result<Vec<(SubjectId, Moment, Option<Moment>)>, AllocError>
        ensures { IfOk result (λ rows. (ids : List ℕ) → IsStrictlySortedBy nat_cmp ids
            → ((s t : ℕ) → was_member self.now g s t ≡ true → list_any (λ x. x == s) ids ≡ true)
            → rows.items ≡ all_member_spans self.now g ids) }
    {
        self.memberships.history(g)
    }

    /// Who was a member of a group at a moment, by id. Costs what was ever noted of the group.
    pub fn members_at(&self, g: GroupId, t: Moment) -> Result<Vec<SubjectId>, AllocError>
        ensures { IfOk result (λ persons. Lists (λ s. was_member self.now g s t) persons.items) }
    {
        self.memberships.persons(g, t)
    }

    /// The groups of which a person was a member at a moment, by id. Costs what was ever noted of
    /// the person.
    pub fn groups_at(&self, s: SubjectId, t: Moment) -> Result<Vec<GroupId>, AllocError>
        ensures { IfOk result (λ groups. Lists (λ g. was_member self.now g s t) groups.items) }
    {
        self.memberships.groups(s, t)
    }

    /// Whether a holder had a privilege on an object at a moment. A step is one interval looked at.
    /// Takes no memory.
    pub fn was_granted<L: Ledger>(
        &self,
        object: Object,
        privilege: Privilege,
        holder: Holder,
        t: Moment,
        steps: &mut Steps<L>,
    ) -> bool
        ensures value { result ≡ was_granted self.now object privilege holder t }
        ensures ticks { steps.new ≡ steps.old
            + looked_at (grant_spans self.now object privilege holder) t }
        ensures looks { steps.new ≤ steps.old + 1 }
        ensures cost { (n : ℕ) → steps.new ≡ steps.old + n
            → 2 ^ n ≤ 2 * length (grant_spans self.now object privilege holder) + 1 }
    {
        self.grants.at(object, privilege, holder, t, steps)
    }

    /// The intervals in which a holder had a privilege on an object, in order.
    pub fn grant_spans(
        &self,
        object: Object,
        privilege: Privilege,
        holder: Holder,
    ) -> Result<Vec<(Moment, Option<Moment>)>, AllocError>
        ensures { IfOk result (λ spans. spans.items
            ≡ grant_spans self.now object privilege holder) }
    {
        let spans = self.grants.spans(object, privilege, holder)?;
        Ok(spans)
    }

    /// The privileges that were held on an object at a moment: by privilege, and then everyone,
    /// persons and groups by id. Costs what was ever noted of the object.
    pub fn grants_at(
        &self,
        object: Object,
        t: Moment,
    ) -> Result<Vec<(Privilege, Holder)>, AllocError>
        ensures ascending { IfOk result (λ grants. IsStrictlySortedBy held_cmp grants.items) }
        ensures each { IfOk result (λ grants. (p : Privilege) (h : Holder)
            → has_grant grants.items p h ≡ was_granted self.now object p h t) }
    {
        self.grants.held(object, t)
    }

    /// The wheel group at a moment: none where the last note of it up to the moment was none, or
    /// there is no such note. Takes no memory.
    pub fn wheel_at(&self, t: Moment) -> Option<GroupId>
        ensures { result ≡ wheel_at self.now t }
    {
        self.wheel.at(t)
    }

    /// The assignments to an owner at a moment, by id, with the values that stood then in the order
    /// in which they were added. Costs what was ever assigned to the owner.
    pub fn assigns_at(&self, owner: Object, t: Moment) -> Result<Vec<AssignRow>, AllocError>
        ensures { IfOk result (λ rows. rows.items
            ≡ filter (λ (row : AssignRow). same_object row.owner owner) (assigns_at self.now t)) }
    {
        self.assigns.on(owner, t)
    }

    /// All that was ever assigned to an owner, to be asked at many moments. Costs as much. The only
    /// error is out of memory.
    pub fn assigned_past(&self, owner: Object) -> Result<AssignedPast, AllocError>
        ensures { IfOk result (λ past. (t : ℕ) → rows_at past t
            ≡ filter (λ (row : AssignRow). same_object row.owner owner) (assigns_at self.now t)) }
    {
        let past = self.assigns.past_on(owner)?;
        Ok(past)
    }

    /// The moments at which what is assigned to an owner may have changed, in order, the first of
    /// them 0: between two of them it stayed. Costs what was ever assigned to the owner, sorted.
    pub fn assign_moments(&self, owner: Object) -> Result<Vec<Moment>, AllocError>
        ensures first { IfOk result (λ ms. slice_get ms.items 0 ≡ Some 0) }
        ensures ascending { IfOk result (λ ms. IsStrictlySortedBy nat_cmp ms.items) }
        ensures noted { IfOk result (λ ms. (now : ℕ) → NotedBy now self.now
            → AllByRecursion (λ m. m ≤ now) ms.items) }
        ensures constant { IfOk result (λ ms. (u t : ℕ) → u ≤ t
            → AllByRecursion (λ m. u < m → m ≤ t → ⊥) ms.items
            → filter (λ (row : AssignRow). same_object row.owner owner) (assigns_at self.now t)
            ≡ filter (λ (row : AssignRow). same_object row.owner owner) (assigns_at self.now u)) }
    {
        let moments = self.assigns.moments(owner)?;
        Ok(moments)
    }

    /// What was noted by a moment was noted by each later one. It does nothing.
    pub fn law_noted_later(&self)
        ensures { (a b : ℕ) → a ≤ b → NotedBy a self.now → NotedBy b self.now }
    {
        let _ = &self.memberships;
    }

    /// Where a test tells who was a member up to the last note, the intervals are what the test
    /// gives moment by moment. It does nothing.
    pub fn law_spans(&self)
        ensures { (test : ℕ → Bool) (now g s : ℕ) → NotedBy now self.now
            → ((t : ℕ) → t ≤ now → was_member self.now g s t ≡ test t)
            → member_spans self.now g s ≡ spans_until test now }
    {
        self.memberships.law_spans();
    }

    /// Where a test tells who held a privilege up to the last note, the intervals are what the test
    /// gives moment by moment. It does nothing.
    pub fn law_grant_spans(&self)
        ensures { (test : ℕ → Bool) (now : ℕ) (o : Object) (p : Privilege) (h : Holder)
            → NotedBy now self.now → ((t : ℕ) → t ≤ now → was_granted self.now o p h t ≡ test t)
            → grant_spans self.now o p h ≡ spans_until test now }
    {
        self.grants.law_spans();
    }

    /// From the last note on all stays as it was then. It does nothing.
    pub fn law_stays(&self)
        ensures members { (at t g s : ℕ) → at ≤ t → NotedBy at self.now
            → was_member self.now g s t ≡ was_member self.now g s at }
        ensures grants { (at t : ℕ) (o : Object) (p : Privilege) (h : Holder) → at ≤ t
            → NotedBy at self.now → was_granted self.now o p h t ≡ was_granted self.now o p h at }
        ensures wheel { (at t : ℕ) → at ≤ t → NotedBy at self.now
            → wheel_at self.now t ≡ wheel_at self.now at }
        ensures assigns { (at t : ℕ) → at ≤ t → NotedBy at self.now
            → assigns_at self.now t ≡ assigns_at self.now at }
    {
        let _ = &self.memberships;
    }
}
