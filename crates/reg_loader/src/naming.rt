// The names of groups and the texts of persons that a plan tells.
ghost use Rattle.std.specs.Prelude.{◌≡◌, ◌<◌, length, map, get_or, [], true, IfOk, string_bytes};
ghost use Rattle.std.specs.List.{AllByRecursion};
ghost use Rattle.reg_base.specs.Names.{is_name};
ghost use Rattle.reg_facts.specs.Naming.{name_of};
ghost use Rattle.reg_facts.specs.Sound.{is_named};
ghost use Rattle.reg_terms.specs.declared.kinds.Object.TheVariants as object;
ghost use Rattle.reg_loader.specs.Plan.{group_name, shown, text_of};
ghost use Rattle.reg_loader.specs.Walks.{AreTold, IsTold};

use crate::keys::Key;
use indexmap::IndexSet;
use reg_base::{GroupId, Name, SubjectId, Text};
use reg_facts::{Facts, Object};
use reg_names::name_of;
use reg_terms::{LoadRow, LoadRows, Names};
use std::alloc::{AllocError, Global};

/// The name that a text is.
fn name_in(alloc: Global, text: &str) -> Result<Name, AllocError>
    requires { is_name text.now ≡ true }
    ensures { IfOk result (λ name. name ≡ text.now) }
{
    match Name::parse(alloc, text.as_bytes())? {
        Some(name) => Ok(name),
        None => unreachable!(),
    }
}

/// The names of a set, in its order.
pub(crate) fn names_of(alloc: Global, set: &IndexSet<String>) -> Result<Names, AllocError>
    requires { AllByRecursion (λ text. is_name (string_bytes text) ≡ true) set.now.keys }
    ensures { IfOk result (λ names. names ≡ map (λ text. string_bytes text) set.now.keys) }
{
    let mut names = Names::new(alloc);
    for text in set.as_slice() {
        let name = name_in(alloc, text.as_str())?;
        names.push(name)?;
    }
    Ok(names)
}

/// The name of a group that stands.
fn standing_name(alloc: Global, facts: &Facts, group: GroupId) -> Result<Name, AllocError>
    requires { is_named (object.Group group) facts.now ≡ true }
    ensures { IfOk result (λ name. name ≡ name_of (object.Group group) facts.now) }
{
    facts.law_sound();
    facts.law_names();
    let text = name_of(alloc, facts, &Object::Group(group))?;
    name_in(alloc, text.as_str())
}

/// The name at a place.
fn name_at(alloc: Global, names: &Names, place: usize) -> Result<Name, AllocError>
    requires { place < length names.now }
    ensures { IfOk result (λ name. name ≡ get_or names.now place []) }
{
    names.list()[place].copy(alloc)
}

/// The name of a group by its id, where these names are made.
fn group_name(alloc: Global, facts: &Facts, names: &Names, group: u64) -> Result<Name, AllocError>
    requires { IsTold names.now facts.now group }
    ensures { IfOk result (λ name. name ≡ group_name names.now facts.now group) }
{
    let made = u64::from(facts.made().groups);
    if group > made {
        name_at(alloc, names, (group - made - 1) as usize)
    } else {
        standing_name(alloc, facts, GroupId::new(group as u32))
    }
}

/// The text of a person; empty where there is none.
fn text_of(alloc: Global, facts: &Facts, person: SubjectId) -> Result<Text, AllocError>
    ensures { IfOk result (λ text. text ≡ text_of facts.now person) }
{
    match facts.subject(person) {
        Some(row) => row.text.copy(alloc),
        None => Text::new(alloc, ""),
    }
}

/// A pair by its texts.
fn shown(alloc: Global, facts: &Facts, names: &Names, key: Key) -> Result<LoadRow, AllocError>
    requires { IsTold names.now facts.now key.0 }
    ensures { IfOk result (λ row. row ≡ shown names.now facts.now key) }
{
    let group = group_name(alloc, facts, names, key.0)?;
    let person = text_of(alloc, facts, SubjectId::new(key.1))?;
    Ok(LoadRow { group, person })
}

/// Pairs by their texts.
pub(crate) fn all_shown(
    alloc: Global,
    facts: &Facts,
    names: &Names,
    keys: &[Key],
) -> Result<LoadRows, AllocError>
    requires { AreTold names.now facts.now keys.now }
    ensures { IfOk result (λ rows. rows ≡ map (shown names.now facts.now) keys.now) }
{
    let mut rows = LoadRows::new(alloc);
    for key in keys {
        let row = shown(alloc, facts, names, *key)?;
        rows.push(row)?;
    }
    Ok(rows)
}
