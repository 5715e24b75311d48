// What comes before all else that may refuse a command about grants.
ghost use Rattle.std.specs.Prelude.{◌≡◌, ◌∷◌, [], None, IfOk};
ghost use Rattle.reg_base.specs.Entities.{entity_of};
ghost use Rattle.reg_terms.specs.declared.command.Command.TheVariants.{GrantAdd, GrantRemove};
ghost use Rattle.reg_facts.specs.Grants.{grant_for, holder_of};
ghost use Rattle.reg_demand.specs.Demands.{On, admin_of, admin_of_found, bare_text};
ghost use Rattle.reg_demand.specs.Refusing.{first_of, barred, denial, grant_stands};

use crate::attributes::demand_on_attribute;
use crate::finding::{is_missing, is_missing_object, named_text};
use crate::refusals::{not_found, object_denied, object_not_found};
use crate::subjects::demand_root;
use reg_base::{Entity, Moment, Privilege, Text};
use reg_effect::Kept;
use reg_facts::{Facts, GrantRow, Object, Refusal};
use reg_priv::{Who, may};
use std::alloc::{AllocError, Global};

/// The caller has a privilege on the object that a text names.
fn demand_on<K: Kept>(
    alloc: Global,
    facts: &Facts,
    kept: &K,
    who: &Who,
    text: &Text,
    object: &Object,
    privilege: Privilege,
) -> Result<Option<Refusal>, AllocError>
    ensures { IfOk result (λ found. found
        ≡ first_of (denial (K.held kept.now) facts.now who.now
        (On (bare_text (entity_of text.now) text.now) object.now privilege) ∷ [])) }
{
    if may(facts, kept, who, object, privilege) {
        return Ok(None);
    }
    object_denied(alloc, text, privilege)
}

/// The caller administers the object that a text names; of a subject only root does.
fn demand_admin<K: Kept>(
    alloc: Global,
    facts: &Facts,
    kept: &K,
    who: &Who,
    text: &Text,
    object: &Object,
) -> Result<Option<Refusal>, AllocError>
    ensures { IfOk result (λ found. found
        ≡ first_of (denial (K.held kept.now) facts.now who.now
        (admin_of (bare_text (entity_of text.now) text.now) object.now facts.now) ∷ [])) }
{
    match object {
        Object::Folder(_) => demand_on(alloc, facts, kept, who, text, object, Privilege::StemAdmin),
        Object::Group(_) => demand_on(alloc, facts, kept, who, text, object, Privilege::Admin),
        Object::Def(_) => demand_on(alloc, facts, kept, who, text, object, Privilege::AttrAdmin),
        Object::Attr(id) => {
            demand_on_attribute(alloc, facts, kept, who, *id, Privilege::AttrAdmin)
        }
        Object::Subject(_) => demand_root(alloc, facts, kept, who),
    }
}

/// The caller administers what a text names, of which this object was found; of an entity of the
/// registry itself only root does.
fn demand_admin_found<K: Kept>(
    alloc: Global,
    facts: &Facts,
    kept: &K,
    who: &Who,
    text: &Text,
    found: &Option<Object>,
) -> Result<Option<Refusal>, AllocError>
    ensures { IfOk result (λ refusal. refusal
        ≡ first_of (denial (K.held kept.now) facts.now who.now
        (admin_of_found (bare_text (entity_of text.now) text.now) found.now facts.now) ∷ [])) }
{
    match found {
        Some(object) => demand_admin(alloc, facts, kept, who, text, object),
        None => demand_root(alloc, facts, kept, who),
    }
}

/// The caller sees the object and the holder, and administers the object.
pub fn grant_add<K: Kept>(
    alloc: Global,
    facts: &Facts,
    kept: &K,
    _by: &Entity,
    who: &Who,
    object: &Text,
    _privilege: Privilege,
    holder: &Entity,
    _from: Option<Moment>,
    _until: Option<Moment>,
) -> Result<Option<Refusal>, AllocError>
    ensures { IfOk result (λ found. found
        ≡ first_of (barred (K.held kept.now) facts.now _by.now who.now
        (GrantAdd object.now _privilege holder.now _from _until))) }
{
    let found = facts.object_of(alloc, object)?;
    if is_missing_object(alloc, facts, kept, who, object, &found)? {
        return object_not_found(alloc, object);
    }
    if is_missing(facts, kept, who, holder) {
        return not_found(alloc, named_text(holder));
    }
    demand_admin_found(alloc, facts, kept, who, object, &found)
}

/// Whether a grant of the privilege stands on an object that was found, whatever its dates.
fn grant_stands(
    facts: &Facts,
    found: &Option<Object>,
    privilege: Privilege,
    holder: &Entity,
) -> bool
    ensures { result ≡ grant_stands
        (grant_for found.now privilege (holder_of holder.now facts.now) None None) facts.now }
{
    let Some(object) = found else {
        return false;
    };
    let Some(holder) = facts.holder_of(holder) else {
        return false;
    };
    facts.has_grant(&GrantRow {
        object: *object,
        privilege,
        holder,
        from: None,
        until: None,
    })
}

/// The caller sees the object and administers it. Who holds the grant counts as found.
pub fn grant_remove<K: Kept>(
    alloc: Global,
    facts: &Facts,
    kept: &K,
    _by: &Entity,
    who: &Who,
    object: &Text,
    privilege: Privilege,
    holder: &Entity,
) -> Result<Option<Refusal>, AllocError>
    ensures { IfOk result (λ found. found
        ≡ first_of (barred (K.held kept.now) facts.now _by.now who.now
        (GrantRemove object.now privilege holder.now))) }
{
    let found = facts.object_of(alloc, object)?;
    if is_missing_object(alloc, facts, kept, who, object, &found)? {
        return object_not_found(alloc, object);
    }
    let stands = grant_stands(facts, &found, privilege, holder);
    if !stands && is_missing(facts, kept, who, holder) {
        return not_found(alloc, named_text(holder));
    }
    demand_admin_found(alloc, facts, kept, who, object, &found)
}
