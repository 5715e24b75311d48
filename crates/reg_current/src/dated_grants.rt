// Grants at their dates, in order.
ghost use Rattle.std.specs.Prelude.{◌≡◌, ℕ, ◌<◌, ◌^◌, ◌&&◌, ◌||◌, false, not, IfOk, OnOk, OnErr};
ghost use Rattle.std.specs.List.{All};
ghost use Rattle.reg_base.specs.declared.privilege.Privilege.{Privilege};
ghost use Rattle.reg_base.specs.declared.privilege.Privilege.TheVariants as privilege;
ghost use Rattle.reg_terms.specs.declared.kinds.Holder.{Holder};
ghost use Rattle.reg_terms.specs.declared.kinds.Holder.TheVariants as holder;
ghost use Rattle.reg_terms.specs.declared.kinds.Object.{Object};
ghost use Rattle.reg_terms.specs.declared.kinds.Object.TheVariants as object;
ghost use Rattle.reg_current.specs.Numbers.{object_number, holder_number};

use reg_base::{FolderId, GroupId, Moment, Privilege, SubjectId};
use reg_facts::{GrantRow, Holder, Object};
use std::alloc::{AllocError, Global};
use std::collections::BTreeSet;

/// Grants, each at a date: by the date, and then by object, privilege and holder.
#[derive(Drop)]
pub struct DatedGrants {
    alloc: Global,
    grants: BTreeSet<(Moment, Object, Privilege, Holder)>,
    ghost are_small: { All (λ (row : ℕ × Object × Privilege × Holder).
        (object_number row.1 < 2 ^ 32) × (holder_number row.3 < 2 ^ 32)) grants.keys },
}

/// What comes first at a date.
fn first_at(date: Moment) -> (Moment, Object, Privilege, Holder)
    ensures { result ≡ (date, object.Folder 0, privilege.Admin, holder.Everyone) }
{
    let least = Object::Folder(FolderId::new(0));
    (date, least, Privilege::Admin, Holder::Everyone)
}

/// What comes last at a date.
fn last_at(date: Moment) -> (Moment, Object, Privilege, Holder)
    ensures { result
        ≡ (date, object.Subject 4294967295, privilege.AttrView, holder.Group 4294967295) }
{
    let last = Object::Subject(SubjectId::new(u32::MAX));
    let holder = Holder::Group(GroupId::new(u32::MAX));
    (date, last, Privilege::AttrView, holder)
}

/// The number of an object has 32 bits. It does nothing.
fn law_object(object: &Object)
    ensures { object_number object.now < 2 ^ 32 }
{
    match object {
        Object::Folder(id) => {
            let _ = id.number();
        }
        Object::Group(id) => {
            let _ = id.number();
        }
        Object::Def(id) => {
            let _ = id.number();
        }
        Object::Attr(id) => {
            let _ = id.number();
        }
        Object::Subject(id) => {
            let _ = id.number();
        }
    }
}

/// The number of a holder has 32 bits. It does nothing.
fn law_holder(holder: &Holder)
    ensures { holder_number holder.now < 2 ^ 32 }
{
    match holder {
        Holder::Everyone => {}
        Holder::Person(id) => {
            let _ = id.number();
        }
        Holder::Group(id) => {
            let _ = id.number();
        }
    }
}

impl DatedGrants {
    ghost use Rattle.reg_current.specs.Dates.{GrantKey};
    ghost use Rattle.reg_current.specs.Coming.{has_dated_grant, same_dated_grant, key_of};
    ghost use Rattle.reg_current.specs.Coming.{IsFirstGrant, AreDatedGrants};

    /// No grants. Takes no memory.
    pub fn new(alloc: Global) -> DatedGrants
        ensures { (d : ℕ) (k : GrantKey) → has_dated_grant result d k ≡ false }
    {
        DatedGrants {
            alloc,
            grants: BTreeSet::new(alloc),
        }
    }

    /// Puts a grant at a date, unless it is there. Out of memory the grants stay as they were.
    pub fn insert(&mut self, date: Moment, row: &GrantRow) -> Result<(), AllocError>
        ensures ok { OnOk result ((d : ℕ) (k : GrantKey)
            → has_dated_grant self.new d k
            ≡ (same_dated_grant date (key_of row.now) d k || has_dated_grant self.old d k)) }
        ensures err { OnErr result ((d : ℕ) (k : GrantKey)
            → has_dated_grant self.new d k ≡ has_dated_grant self.old d k) }
    {
        law_object(&row.object);
        law_holder(&row.holder);
        self.grants
            .insert((date, row.object, row.privilege, row.holder))?;
        Ok(())
    }

    /// Takes a grant away from a date, where it is there. Takes no memory.
    pub fn remove(&mut self, date: Moment, row: &GrantRow)
        ensures { (d : ℕ) (k : GrantKey)
            → has_dated_grant self.new d k
            ≡ (not (same_dated_grant date (key_of row.now) d k)
            && has_dated_grant self.old d k) }
    {
        self.grants
            .remove(&(date, row.object, row.privilege, row.holder));
    }

    /// The least date at which a grant stands. None exactly where there is no grant. Takes no
    /// memory, and is a look at the first grant.
    pub fn first(&self) -> Option<Moment>
        ensures { IsFirstGrant self.now result }
    {
        let row = self.grants.first()?;
        Some(row.0)
    }

    /// The grants at a date, in order. No others are looked at.
    pub fn at(&self, date: Moment) -> Result<Vec<(Object, Privilege, Holder)>, AllocError>
        ensures { IfOk result (λ keys. AreDatedGrants self.now date keys.items) }
    {
        let mut keys = Vec::new(self.alloc);
        for row in self.grants.range(first_at(date)..=last_at(date)) {
            keys.push((row.1, row.2, row.3))?;
        }
        Ok(keys)
    }
}
