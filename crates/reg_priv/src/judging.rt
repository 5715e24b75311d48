// What a caller may do.
ghost use Rattle.std.specs.Prelude.{◌≡◌, ◌&&◌, ◌||◌, IfOk, filter, map};
ghost use Rattle.std.specs.List.{list_any};
ghost use Rattle.reg_terms.specs.Kinds.{is_of_kind};
ghost use Rattle.reg_terms.specs.Privileges.{all_privileges, gives, line_of};
ghost use Rattle.reg_terms.specs.declared.kinds.Object.TheVariants.{Attr};
ghost use Rattle.reg_priv.specs.Grants.{Grant};
ghost use Rattle.reg_priv.specs.May.{is_root, granted, holds, judged, may, visible};
ghost use Rattle.reg_priv.specs.May.{privileges_of, wheel};

use crate::Who;
use crate::climbing::any_inherited;
use crate::granting::any_written;
use crate::holding::holders;
use crate::who::holds;
use reg_base::{AttrId, GroupId, Privilege};
use reg_effect::Kept;
use reg_facts::{Facts, Holder, Object};
use reg_terms::{Privileges, all_privileges, gives, privilege_kind};
use std::alloc::{AllocError, Global};

/// The group whose members may do everything.
const WHEEL: &str = "etc:sysadmingroup";

/// The wheel group, whose members may do everything: the group that is named `etc:sysadmingroup`
/// now. It takes no memory.
pub fn wheel(facts: &Facts) -> Option<GroupId>
    ensures { result ≡ wheel facts.now }
{
    facts.group_id(WHEEL)
}

/// Whether a caller may do everything: GrouperSystem, and who is in the wheel group. It takes no
/// memory.
pub fn is_root<K: Kept>(facts: &Facts, kept: &K, who: &Who) -> bool
    ensures { result ≡ is_root (K.held kept.now) facts.now who.now }
{
    match who {
        Who::System => true,
        Who::Person(person) => match wheel(facts) {
            Some(group) => kept.is_member(group, *person),
            None => false,
        },
    }
}

/// Whether some grant on the object, direct and on or inherited, allows it.
fn granted<K: Kept>(
    facts: &Facts,
    kept: &K,
    who: &Who,
    object: &Object,
    privilege: Privilege,
) -> bool
    ensures { result ≡ granted (K.held kept.now) facts.now who.now object.now privilege }
{
    let rows = facts.grants_of(object);
    any_written(kept, who, privilege, rows) || any_inherited(facts, kept, who, privilege, object)
}

/// The object whose grants count for an attribute.
fn judged_attribute(facts: &Facts, id: AttrId) -> Object
    ensures { result ≡ judged (Attr id) facts.now }
{
    match facts.attribute(id) {
        Some(row) => Object::Def(row.definition),
        None => Object::Attr(id),
    }
}

/// The object whose grants count: of an attribute its definition.
pub fn judged(facts: &Facts, object: &Object) -> Object
    ensures { result ≡ judged object.now facts.now }
{
    match object {
        Object::Attr(id) => judged_attribute(facts, *id),
        Object::Folder(_) | Object::Group(_) | Object::Def(_) | Object::Subject(_) => *object,
    }
}

/// Whether a caller has a privilege on an object; of an attribute it is asked of the definition.
/// It takes no memory. It costs the grants on the object and the inherits on the folders above it,
/// each with one look into the kept memberships at most.
pub fn may<K: Kept>(
    facts: &Facts,
    kept: &K,
    who: &Who,
    object: &Object,
    privilege: Privilege,
) -> bool
    ensures { result ≡ may (K.held kept.now) facts.now who.now object.now privilege }
{
    let object = judged(facts, object);
    object.is_of(privilege_kind(privilege))
        && (is_root(facts, kept, who) || granted(facts, kept, who, &object, privilege))
}

/// Whether a caller sees an object: every folder and subject, a group with VIEW, and a definition
/// and its attributes with attrView. It takes no memory.
pub fn is_visible<K: Kept>(facts: &Facts, kept: &K, who: &Who, object: &Object) -> bool
    ensures { result ≡ visible (K.held kept.now) facts.now who.now object.now }
{
    match object {
        Object::Folder(_) | Object::Subject(_) => true,
        Object::Group(_) => may(facts, kept, who, object, Privilege::View),
        Object::Def(_) | Object::Attr(_) => may(facts, kept, who, object, Privilege::AttrView),
    }
}

/// The privileges of those of some grants that are the caller's.
fn held_by<K: Kept>(
    alloc: Global,
    kept: &K,
    who: &Who,
    grants: &[(Privilege, Holder)],
) -> Result<Vec<Privilege>, AllocError>
    ensures { IfOk result (λ held. held.items
        ≡ map (λ (g : Grant). g.0)
        (filter (λ (g : Grant). holds (K.held kept.now) who.now g.1) grants.now)) }
{
    let mut held = Vec::new(alloc);
    for grant in grants {
        if holds(kept, who, &grant.1) {
            held.push(grant.0)?;
        }
    }
    Ok(held)
}

/// Whether one of these privileges is the wanted one or gives it.
fn any_gives(held: &[Privilege], wanted: Privilege) -> bool
    ensures { result ≡ list_any (λ q. gives q wanted) held.now }
{
    held.iter().any(|privilege| gives(*privilege, wanted))
}

/// Whether a privilege is for objects of this kind, and root asks or one of those held gives it.
fn is_given(object: &Object, root: bool, held: &[Privilege], privilege: Privilege) -> bool
    ensures { result ≡ (is_of_kind (line_of privilege).on object.now
        && (root || list_any (λ q. gives q privilege) held.now)) }
{
    object.is_of(privilege_kind(privilege)) && (root || any_gives(held, privilege))
}

/// The privileges on an object of its kind: all of them for root, else what the held ones give.
fn privileges_by(
    alloc: Global,
    object: &Object,
    root: bool,
    held: &[Privilege],
) -> Result<Privileges, AllocError>
    ensures { IfOk result (λ list. list ≡ filter
        (λ p. is_of_kind (line_of p).on object.now
        && (root || list_any (λ q. gives q p) held.now)) all_privileges) }
{
    let mut list = Privileges::new(alloc);
    for privilege in all_privileges() {
        if is_given(object, root, held, *privilege) {
            list.push(*privilege)?;
        }
    }
    Ok(list)
}

/// All privileges that a caller has on an object, by code. It goes once through the grants on the
/// object and the inherits on the folders above it, and not at all for root. The only error is out
/// of memory.
pub fn privileges_of<K: Kept>(
    alloc: Global,
    facts: &Facts,
    kept: &K,
    who: &Who,
    object: &Object,
) -> Result<Privileges, AllocError>
    ensures { IfOk result (λ list. list
        ≡ privileges_of (K.held kept.now) facts.now who.now object.now) }
{
    let judged = judged(facts, object);
    if is_root(facts, kept, who) {
        let all = privileges_by(alloc, &judged, true, &[])?;
        return Ok(all);
    }
    let grants = holders(alloc, facts, &judged)?;
    let held = held_by(alloc, kept, who, &grants)?;
    let given = privileges_by(alloc, &judged, false, &held)?;
    Ok(given)
}
