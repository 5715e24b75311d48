// What a query names that isn't there for the caller. Nothing here takes memory, and what nobody
// has and what the caller doesn't see are one and the same.
ghost use Rattle.std.specs.Prelude.{◌≡◌};
ghost use Rattle.reg_machine.specs.History as given;
ghost use Rattle.reg_view.specs.Missing.{finds_entity, finds_first, finds_named, finds_object};
ghost use Rattle.reg_view.specs.Missing.{finds_past, finds_second, missing, standing};
ghost use Rattle.reg_view.specs.Past.{past_at};

use crate::Query;
use crate::finding::{is_entity_text, seen_object};
use crate::logging::place_seen;
use crate::question::Called;
use crate::seeing::{gone_found, seen_group};
use reg_base::{Entity, Name, Text};
use reg_effect::Kept;
use reg_facts::Facts;
use reg_machine::Machine;
use reg_priv::{Who, who_of};

/// Who is this entity as a caller, if it is one and stands.
pub fn standing(facts: &Facts, caller: &Option<Entity>) -> Option<Who>
    ensures { result ≡ standing caller.now facts.now }
{
    match caller {
        Some(entity) => who_of(facts, entity),
        None => None,
    }
}

/// Whether an entity is there for the caller.
fn finds_entity<K: Kept>(facts: &Facts, kept: &K, who: &Who, entity: &Entity) -> bool
    ensures { result ≡ finds_entity (K.held kept.now) facts.now who.now entity.now }
{
    match entity {
        Entity::Person(text) => facts.subject_id(text.as_str()).is_some(),
        Entity::Group(name) => seen_group(facts, kept, who, name).is_some(),
        Entity::System | Entity::Everyone => true,
    }
}

/// Whether an entity is there for the caller, of a text that may be none's.
fn finds_named<K: Kept>(facts: &Facts, kept: &K, who: &Who, entity: &Option<Entity>) -> bool
    ensures { result ≡ finds_named (K.held kept.now) facts.now who.now entity.now }
{
    match entity {
        Some(entity) => finds_entity(facts, kept, who, entity),
        None => false,
    }
}

/// Whether the object of this text is there for the caller: the entity, or an object by its name.
fn finds_object<K: Kept>(
    facts: &Facts,
    kept: &K,
    who: &Who,
    text: &Text,
    entity: &Option<Entity>,
) -> bool
    ensures { result ≡ finds_object (K.held kept.now) facts.now who.now text.now entity.now }
{
    if is_entity_text(text) {
        return finds_named(facts, kept, who, entity);
    }
    seen_object(facts, kept, who, text).is_some()
}

/// Whether the group of this name, whose past is asked, is there for the caller.
fn finds_past<K: Kept>(
    machine: &Machine<K>,
    facts: &Facts,
    kept: &K,
    who: &Who,
    group: &Name,
) -> bool
    ensures { result ≡ finds_past (past_at machine.now)
        (K.held kept.now) facts.now who.now group.now }
{
    if facts.group_id(group.as_str()).is_some() {
        return seen_group(facts, kept, who, group).is_some();
    }
    gone_found(machine, facts, kept, who, group).is_some()
}

/// Whether what a query names first is there for the caller. The entity is that of its object.
fn finds_first<K: Kept>(
    machine: &Machine<K>,
    facts: &Facts,
    kept: &K,
    who: &Who,
    query: &Query,
    entity: &Option<Entity>,
) -> bool
    requires { facts.now ≡ given.facts machine.now.history machine.now.clock }
    ensures { result ≡ finds_first (past_at machine.now)
        (K.held kept.now) facts.now who.now query.now entity.now }
{
    match query {
        Query::GroupGet { group } => seen_group(facts, kept, who, group).is_some(),
        Query::FolderList { folder } => facts.folder_id(folder.as_str()).is_some(),
        Query::Members { group, .. } => finds_past(machine, facts, kept, who, group),
        Query::Rows { group } => seen_group(facts, kept, who, group).is_some(),
        Query::Groups { subject, .. } => finds_entity(facts, kept, who, subject),
        Query::Grants { object, .. } => finds_object(facts, kept, who, object, entity),
        Query::May { object, .. } => finds_object(facts, kept, who, object, entity),
        Query::Attributes { object, .. } => finds_object(facts, kept, who, object, entity),
        Query::History { group } => finds_past(machine, facts, kept, who, group),
        Query::Log { consumer, .. } => place_seen(machine, facts, kept, who, consumer).is_some(),
        Query::Admin => true,
    }
}

/// Whether what a query names beside this is there for the caller.
fn finds_second<K: Kept>(facts: &Facts, kept: &K, who: &Who, query: &Query) -> bool
    ensures { result ≡ finds_second (K.held kept.now) facts.now who.now query.now }
{
    match query {
        Query::May { entity, .. } => finds_entity(facts, kept, who, entity),
        _ => true,
    }
}

/// What a query names that isn't there for the caller, as it is called there.
pub fn missing<K: Kept>(
    machine: &Machine<K>,
    facts: &Facts,
    kept: &K,
    who: &Who,
    query: &Query,
    called: Called,
) -> Option<Text>
    requires { facts.now ≡ given.facts machine.now.history machine.now.clock }
    ensures { result ≡ missing (past_at machine.now)
        (K.held kept.now) facts.now who.now query.now called }
{
    let Called {
        entity,
        first,
        second,
    } = called;
    if !finds_first(machine, facts, kept, who, query, &entity) {
        return Some(first);
    }
    if !finds_second(facts, kept, who, query) {
        return Some(second);
    }
    None
}
