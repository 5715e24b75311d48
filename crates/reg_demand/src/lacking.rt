// What a caller lacks.
ghost use Rattle.std.specs.Prelude.{◌≡◌, not};
ghost use Rattle.reg_terms.specs.declared.kinds.Object.TheVariants.{Def, Folder, Group};
ghost use Rattle.reg_facts.specs.Edits.{the_id};
ghost use Rattle.reg_priv.specs.May.{may};
ghost use Rattle.reg_demand.specs.Demands.{is_self};

use reg_base::{AttrDefId, AttrId, Entity, FolderId, GroupId, Privilege};
use reg_effect::Kept;
use reg_facts::{Facts, Object};
use reg_priv::{Who, may};

/// The id that was found.
fn the_group(found: &Option<GroupId>) -> GroupId
    ensures { result ≡ the_id found.now }
{
    match found {
        Some(id) => *id,
        None => GroupId::new(0),
    }
}

/// The id that was found.
fn the_folder(found: &Option<FolderId>) -> FolderId
    ensures { result ≡ the_id found.now }
{
    match found {
        Some(id) => *id,
        None => FolderId::new(0),
    }
}

/// The id that was found.
fn the_definition(found: &Option<AttrDefId>) -> AttrDefId
    ensures { result ≡ the_id found.now }
{
    match found {
        Some(id) => *id,
        None => AttrDefId::new(0),
    }
}

/// The id that was found.
pub fn the_attribute(found: &Option<AttrId>) -> AttrId
    ensures { result ≡ the_id found.now }
{
    match found {
        Some(id) => *id,
        None => AttrId::new(0),
    }
}

/// Whether the caller lacks a privilege on a group that was found.
pub fn lacks_on_group<K: Kept>(
    facts: &Facts,
    kept: &K,
    who: &Who,
    found: &Option<GroupId>,
    privilege: Privilege,
) -> bool
    ensures { result ≡ not (may (K.held kept.now) facts.now who.now
        (Group (the_id found.now)) privilege) }
{
    let id = the_group(found);
    !may(facts, kept, who, &Object::Group(id), privilege)
}

/// Whether the caller lacks a privilege on a folder that was found.
pub fn lacks_on_folder<K: Kept>(
    facts: &Facts,
    kept: &K,
    who: &Who,
    found: &Option<FolderId>,
    privilege: Privilege,
) -> bool
    ensures { result ≡ not (may (K.held kept.now) facts.now who.now
        (Folder (the_id found.now)) privilege) }
{
    let id = the_folder(found);
    !may(facts, kept, who, &Object::Folder(id), privilege)
}

/// Whether the caller lacks a privilege on a definition that was found.
pub fn lacks_on_definition<K: Kept>(
    facts: &Facts,
    kept: &K,
    who: &Who,
    found: &Option<AttrDefId>,
    privilege: Privilege,
) -> bool
    ensures { result ≡ not (may (K.held kept.now) facts.now who.now
        (Def (the_id found.now)) privilege) }
{
    let id = the_definition(found);
    !may(facts, kept, who, &Object::Def(id), privilege)
}

/// Whether the member is the caller.
pub fn is_self(by: &Entity, member: &Entity) -> bool
    ensures { result ≡ is_self by.now member.now }
{
    match by {
        Entity::Person(text) => {
            matches!(member, Entity::Person(other) if text.as_str() == other.as_str())
        }
        Entity::System => matches!(member, Entity::System),
        Entity::Group(_) | Entity::Everyone => false,
    }
}
