// Who held which privilege on each object.
ghost use Rattle.std.specs.Prelude.{◌≡◌, ◌≤◌, ◌+◌, ◌*◌, ◌^◌, ◌&&◌, ℕ, [], true, length, map};
ghost use Rattle.std.specs.Prelude.{nat_le, IfOk, if◌then◌else◌};
ghost use Rattle.std.specs.Ordering.{eq_by_cmp};
ghost use Rattle.std.specs.List.Sorted.{IsStrictlySortedBy};
ghost use Rattle.reg_base.specs.declared.privilege.Privilege.{Privilege};
ghost use Rattle.reg_terms.specs.Kinds.{same_object};
ghost use Rattle.reg_terms.specs.declared.kinds.Object.{Object};
ghost use Rattle.reg_terms.specs.declared.kinds.Holder.{Holder};
ghost use Rattle.reg_pit.specs.Spans.{AreSpans, NoLater, looked_at};
ghost use Rattle.reg_pit.specs.Runs.{spans_of};
ghost use Rattle.reg_pit.specs.Grants.{grant_cmp, is_granted, has_grant, held_cmp, same_held};
ghost use Rattle.reg_pit.specs.Grants.{Fits};

use crate::Intervals;
use reg_base::{GroupId, Moment, Privilege, Steps};
use reg_terms::{Holder, Object};
use std::alloc::{AllocError, Global};
use std::marker::Model;
use std::sync::ledger::Ledger;

/// Who held which privilege on each object. Contracts see the intervals by object, privilege and
/// holder.
#[derive(Drop)]
pub(crate) struct Grants {
    alloc: Global,
    granted: Intervals<(Object, Privilege, Holder)>,
}

impl Model for Grants {
    ghost use Rattle.std.specs.Prelude.{List, ℕ};
    ghost use Rattle.reg_base.specs.declared.privilege.Privilege.{Privilege};
    ghost use Rattle.reg_terms.specs.declared.kinds.Object.{Object};
    ghost use Rattle.reg_terms.specs.declared.kinds.Holder.{Holder};
    ghost use Rattle.reg_pit.specs.Grants.{AreHeld};

    ghost Value = { List (((Object × Privilege × Holder) × ℕ) × ℕ) };

    ghost view = { λ g. g.granted };

    ghost invariant = { λ g. AreHeld g.granted };
}

/// The number of a group that holds something has 32 bits. It does nothing.
fn law_fits(holder: &Holder)
    ensures { Fits holder.now }
{
    match holder {
        Holder::Group(id) => {
            let _ = id.number();
        }
        Holder::Everyone | Holder::Person(_) => {}
    }
}

/// The key of a privilege of a holder on an object.
fn key_of(object: &Object, privilege: &Privilege, holder: &Holder) -> (Object, Privilege, Holder)
    ensures { result ≡ (object.now, privilege.now, holder.now) }
{
    (*object, *privilege, *holder)
}

/// A key is itself, and two keys are one either way round. It does nothing.
fn law_ties<K: Ord>(key: &K)
    ensures same { (a : K) → eq_by_cmp K.cmp a a ≡ true }
    ensures turned { (a b : K) → eq_by_cmp K.cmp a b ≡ eq_by_cmp K.cmp b a }
{
    let _ = key;
}

/// The second and the third of each.
fn without_first<A: Copy, B: Copy, C: Copy>(
    alloc: Global,
    keys: &[(A, B, C)],
) -> Result<Vec<(B, C)>, AllocError>
    ensures { IfOk result (λ pairs. pairs.items ≡ map (λ key. (key.1, key.2)) keys.now) }
{
    keys.iter().map(|key| (key.1, key.2)).collect(alloc)
}

impl Grants {
    /// Nobody held anything. Takes no memory.
    pub(crate) fn new(alloc: Global) -> Grants
        ensures { (k : Object × Privilege × Holder) → spans_of grant_cmp result k ≡ [] }
    {
        Grants {
            alloc,
            granted: Intervals::new(alloc),
        }
    }

    /// From a moment on the privileges held on an object are exactly these; nothing was noted
    /// later.
    pub(crate) fn note(
        self,
        object: Object,
        grants: &[(Privilege, Holder)],
        at: Moment,
    ) -> Result<Grants, AllocError>
        requires { (k : Object × Privilege × Holder) → NoLater at (spans_of grant_cmp self k) }
        ensures noted { IfOk result (λ after. (o : Object) (p : Privilege) (h : Holder) (t : ℕ)
            → is_granted after o p h t
            ≡ (if same_object o object && nat_le at t then has_grant grants.now p h
            else is_granted self o p h t)) }
        ensures last { IfOk result (λ after. (k : Object × Privilege × Holder)
            → NoLater at (spans_of grant_cmp after k)) }
    {
        let greatest = Holder::Group(GroupId::new(u32::MAX));
        let first = key_of(&object, &Privilege::Admin, &Holder::Everyone);
        let last = key_of(&object, &Privilege::AttrView, &greatest);
        let Grants { alloc, granted } = self;
        let mut granted = granted.clear(first, last, at)?;
        for (privilege, holder) in grants {
            law_fits(holder);
            granted.set(key_of(&object, privilege, holder), true, at)?;
        }
        Ok(Grants { alloc, granted })
    }

    /// From a moment on a holder has a privilege on an object, or hasn't; nothing was noted later.
    pub(crate) fn set(
        self,
        object: Object,
        privilege: Privilege,
        holder: Holder,
        on: bool,
        at: Moment,
    ) -> Result<Grants, AllocError>
        requires { (k : Object × Privilege × Holder) → NoLater at (spans_of grant_cmp self k) }
        ensures noted { IfOk result (λ after. (o : Object) (p : Privilege) (h : Holder) (t : ℕ)
            → is_granted after o p h t
            ≡ (if (same_object o object && same_held (privilege, holder) (p, h)) && nat_le at t
            then on else is_granted self o p h t)) }
        ensures last { IfOk result (λ after. (k : Object × Privilege × Holder)
            → NoLater at (spans_of grant_cmp after k)) }
    {
        law_fits(&holder);
        let Grants { alloc, mut granted } = self;
        granted.set(key_of(&object, &privilege, &holder), on, at)?;
        Ok(Grants { alloc, granted })
    }

    /// Whether a holder had a privilege on an object at a moment. A step is one interval looked at.
    /// Takes no memory.
    pub(crate) fn at<L: Ledger>(
        &self,
        object: Object,
        privilege: Privilege,
        holder: Holder,
        t: Moment,
        steps: &mut Steps<L>,
    ) -> bool
        ensures value { result ≡ is_granted self.now object privilege holder t }
        ensures ticks { steps.new ≡ steps.old
            + looked_at (spans_of grant_cmp self.now (object, privilege, holder)) t }
        ensures looks { steps.new ≤ steps.old + 1 }
        ensures cost { (n : ℕ) → steps.new ≡ steps.old + n
            → 2 ^ n ≤ 2 * length (spans_of grant_cmp self.now (object, privilege, holder)) + 1 }
    {
        self.granted.at((object, privilege, holder), t, steps)
    }

    /// The intervals in which a holder had a privilege on an object, in order.
    pub(crate) fn spans(
        &self,
        object: Object,
        privilege: Privilege,
        holder: Holder,
    ) -> Result<Vec<(Moment, Option<Moment>)>, AllocError>
        ensures { IfOk result (λ spans. spans.items
            ≡ spans_of grant_cmp self.now (object, privilege, holder)) }
    {
        let spans = self.granted.rows((object, privilege, holder))?;
        Ok(spans)
    }

    /// The intervals of each privilege of a holder are none empty, and no two touch. It does
    /// nothing.
    pub(crate) fn law_spans(&self)
        ensures { (k : Object × Privilege × Holder) → AreSpans (spans_of grant_cmp self.now k) }
    {
        self.granted.law_rows_apart();
    }

    /// The privileges that were held on an object at a moment, in order.
    pub(crate) fn held(
        &self,
        object: Object,
        t: Moment,
    ) -> Result<Vec<(Privilege, Holder)>, AllocError>
        ensures ascending { IfOk result (λ grants. IsStrictlySortedBy held_cmp grants.items) }
        ensures each { IfOk result (λ grants. (p : Privilege) (h : Holder)
            → has_grant grants.items p h ≡ is_granted self.now object p h t) }
    {
        let greatest = Holder::Group(GroupId::new(u32::MAX));
        let first = key_of(&object, &Privilege::Admin, &Holder::Everyone);
        let last = key_of(&object, &Privilege::AttrView, &greatest);
        law_ties(&first);
        let keys = self.granted.on_between(first, last, t)?;
        let grants = without_first(self.alloc, &keys)?;
        Ok(grants)
    }
}
