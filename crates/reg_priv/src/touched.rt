// Which objects' grants an event may change.
ghost use Rattle.std.specs.Prelude.{◌≡◌, ◌≤◌, ◌||◌, List, ℕ, true, false, IfOk, OnOk, Some};
ghost use Rattle.std.specs.List.{list_any};
ghost use Rattle.std.specs.Str.{bytes_eq};
ghost use Rattle.reg_terms.specs.declared.event.Event.{Event};
ghost use Rattle.reg_terms.specs.declared.kinds.Object.{Object};
ghost use Rattle.reg_terms.specs.declared.kinds.Scope.TheVariants.{One, Sub};
ghost use Rattle.reg_terms.specs.Kinds.{is_of_kind, same_object};
ghost use Rattle.reg_facts.specs.Events.{happened};
ghost use Rattle.reg_facts.specs.Naming.{child, place_of, placed};
ghost use Rattle.reg_facts.specs.Suiting.{Suits};
ghost use Rattle.reg_names.specs.Scopes.{in_scope};
ghost use Rattle.reg_priv.specs.Grants.{grants, reaches};
ghost use Rattle.reg_priv.specs.Touched.{AddsOnly, is_listed, place_below, touched};

use crate::climbing::MOST_LEVELS;
use reg_base::FolderId;
use reg_facts::{
    ChildNames, Event, Facts, InheritKind, InheritRow, Object, Scope, Texts, law_by_bytes,
};
use std::alloc::{AllocError, Global};

/// An event that suits the facts leaves the grants, direct and inherited, of every object that it
/// doesn't touch as they were. It does nothing.
pub fn law_untouched(facts: &Facts)
    ensures { (e : Event) (o : Object) → Suits e facts.now → touched e facts.now o ≡ false
        → grants o (happened e facts.now) ≡ grants o facts.now }
{
    facts.law_sound();
}

/// One object.
fn only(alloc: Global, object: Object) -> Result<Vec<Object>, AllocError>
    ensures each { IfOk result (λ objects. (o : Object) → same_object object o ≡ true
        → is_listed o objects.items ≡ true) }
    ensures only { IfOk result (λ objects. (o : Object) → is_listed o objects.items ≡ true
        → same_object object o ≡ true) }
{
    let mut objects = Vec::new(alloc);
    objects.push(object)?;
    Ok(objects)
}

/// Puts the objects of these extensions in a folder.
fn put_named(
    facts: &Facts,
    folder: FolderId,
    extensions: &Texts,
    found: &mut Vec<Object>,
) -> Result<(), AllocError>
    ensures kept { OnOk result ((o : Object) → is_listed o found.old.items ≡ true
        → is_listed o found.new.items ≡ true) }
    ensures named { OnOk result ((e : List ℕ) (o : Object)
        → list_any (λ t. bytes_eq t e) extensions.now ≡ true → child folder e facts.now ≡ Some o
        → is_listed o found.new.items ≡ true) }
    ensures only { OnOk result (AddsOnly (λ o. in_scope folder One o facts.now) found.old.items
        found.new.items) }
{
    facts.law_sound();
    let mut pieces = extensions.pieces();
    while let Some(extension) = pieces.next() {
        if let Some(object) = facts.child(folder, extension) {
            found.push(object)?;
        }
    }
    Ok(())
}

/// Puts the objects of these names in a folder.
fn put_all_named(
    facts: &Facts,
    folder: FolderId,
    names: &ChildNames,
    found: &mut Vec<Object>,
) -> Result<(), AllocError>
    ensures folders { OnOk result ((e : List ℕ) (o : Object)
        → list_any (λ t. bytes_eq t e) names.now.folders ≡ true → child folder e facts.now ≡ Some o
        → is_listed o found.new.items ≡ true) }
    ensures groups { OnOk result ((e : List ℕ) (o : Object)
        → list_any (λ t. bytes_eq t e) names.now.groups ≡ true → child folder e facts.now ≡ Some o
        → is_listed o found.new.items ≡ true) }
    ensures definitions { OnOk result ((e : List ℕ) (o : Object)
        → list_any (λ t. bytes_eq t e) names.now.definitions ≡ true
        → child folder e facts.now ≡ Some o → is_listed o found.new.items ≡ true) }
    ensures attributes { OnOk result ((e : List ℕ) (o : Object)
        → list_any (λ t. bytes_eq t e) names.now.attributes ≡ true
        → child folder e facts.now ≡ Some o → is_listed o found.new.items ≡ true) }
    ensures only { OnOk result (AddsOnly (λ o. in_scope folder One o facts.now) found.old.items
        found.new.items) }
{
    put_named(facts, folder, &names.folders, found)?;
    put_named(facts, folder, &names.groups, found)?;
    put_named(facts, folder, &names.definitions, found)?;
    put_named(facts, folder, &names.attributes, found)
}

/// The objects that stand directly in a folder.
fn objects_in(alloc: Global, facts: &Facts, folder: FolderId) -> Result<Vec<Object>, AllocError>
    ensures each { IfOk result (λ objects. (o : Object) → in_scope folder One o facts.now ≡ true
        → is_listed o objects.items ≡ true) }
    ensures only { IfOk result (λ objects. (o : Object) → is_listed o objects.items ≡ true
        → in_scope folder One o facts.now ≡ true) }
{
    facts.law_sound();
    law_by_bytes();
    let names = facts.child_names(alloc, folder, ":")?;
    let mut found = Vec::new(alloc);
    put_all_named(facts, folder, &names, &mut found)?;
    Ok(found)
}

/// Puts what stands below a folder, by so many levels.
fn put_below(
    alloc: Global,
    facts: &Facts,
    levels: usize,
    folder: FolderId,
    found: &mut Vec<Object>,
) -> Result<(), AllocError>
    requires { levels ≤ 1001 }
    ensures kept { OnOk result ((o : Object) → is_listed o found.old.items ≡ true
        → is_listed o found.new.items ≡ true) }
    ensures below { OnOk result ((o : Object)
        → place_below levels folder (place_of o (placed facts.now)) facts.now ≡ true
        → is_listed o found.new.items ≡ true) }
    ensures only { OnOk result (AddsOnly
        (λ o. place_below levels folder (place_of o (placed facts.now)) facts.now)
        found.old.items found.new.items) }
{
    if levels == 0 {
        return Ok(());
    }
    facts.law_sound();
    let objects = objects_in(alloc, facts, folder)?;
    for object in &objects {
        found.push(*object)?;
        if let Some(id) = object.folder() {
            put_below(alloc, facts, levels - 1, id, found)?;
        }
    }
    Ok(())
}

/// What stands below a folder.
fn objects_below(alloc: Global, facts: &Facts, folder: FolderId) -> Result<Vec<Object>, AllocError>
    ensures each { IfOk result (λ objects. (o : Object) → in_scope folder Sub o facts.now ≡ true
        → is_listed o objects.items ≡ true) }
    ensures only { IfOk result (λ objects. (o : Object) → is_listed o objects.items ≡ true
        → in_scope folder Sub o facts.now ≡ true) }
{
    let mut found = Vec::new(alloc);
    put_below(alloc, facts, MOST_LEVELS + 1, folder, &mut found)?;
    Ok(found)
}

/// A folder, and what stands below it.
fn folder_and_below(
    alloc: Global,
    facts: &Facts,
    folder: FolderId,
) -> Result<Vec<Object>, AllocError>
    ensures folder { IfOk result (λ objects. (o : Object)
        → same_object (Object.Folder folder) o ≡ true → is_listed o objects.items ≡ true) }
    ensures below { IfOk result (λ objects. (o : Object) → in_scope folder Sub o facts.now ≡ true
        → is_listed o objects.items ≡ true) }
    ensures only { IfOk result (λ objects. (o : Object) → is_listed o objects.items ≡ true
        → (same_object (Object.Folder folder) o || in_scope folder Sub o facts.now) ≡ true) }
{
    let mut objects = objects_below(alloc, facts, folder)?;
    objects.push(Object::Folder(folder))?;
    Ok(objects)
}

/// What stands in the scope of an inherit.
fn in_its_scope(alloc: Global, facts: &Facts, row: &InheritRow) -> Result<Vec<Object>, AllocError>
    ensures each { IfOk result (λ objects. (o : Object)
        → in_scope row.now.folder row.now.scope o facts.now ≡ true
        → is_listed o objects.items ≡ true) }
    ensures only { IfOk result (λ objects. (o : Object) → is_listed o objects.items ≡ true
        → in_scope row.now.folder row.now.scope o facts.now ≡ true) }
{
    match row.scope {
        Scope::One => objects_in(alloc, facts, row.folder),
        Scope::Sub => objects_below(alloc, facts, row.folder),
    }
}

/// Those of a kind.
fn of_kind(alloc: Global, objects: &[Object], kind: InheritKind) -> Result<Vec<Object>, AllocError>
    ensures each { IfOk result (λ kept. (o : Object) → is_of_kind kind o ≡ true
        → is_listed o objects.now ≡ true → is_listed o kept.items ≡ true) }
    ensures kind { IfOk result (λ kept. (o : Object) → is_listed o kept.items ≡ true
        → is_of_kind kind o ≡ true) }
    ensures among { IfOk result (λ kept. (o : Object) → is_listed o kept.items ≡ true
        → is_listed o objects.now ≡ true) }
{
    let mut kept = Vec::new(alloc);
    for object in objects {
        if object.is_of(kind) {
            kept.push(*object)?;
        }
    }
    Ok(kept)
}

/// What an inherit reaches.
fn reached_by(alloc: Global, facts: &Facts, row: &InheritRow) -> Result<Vec<Object>, AllocError>
    ensures each { IfOk result (λ objects. (o : Object) → reaches o facts.now row.now ≡ true
        → is_listed o objects.items ≡ true) }
    ensures only { IfOk result (λ objects. (o : Object) → is_listed o objects.items ≡ true
        → reaches o facts.now row.now ≡ true) }
{
    let objects = in_its_scope(alloc, facts, row)?;
    let kept = of_kind(alloc, &objects, row.kind)?;
    Ok(kept)
}

/// The objects whose grants, direct or inherited, an event may change, at the facts before it, and
/// no others; each is listed at least once. An inherit costs what stands in its folder, or below
/// it, and a folder that is moved what stands below it; all else costs nothing. The only error is
/// out of memory.
pub fn touched_objects(
    alloc: Global,
    facts: &Facts,
    event: &Event,
) -> Result<Vec<Object>, AllocError>
    ensures each { IfOk result (λ objects. (o : Object) → touched event.now facts.now o ≡ true
        → is_listed o objects.items ≡ true) }
    ensures only { IfOk result (λ objects. (o : Object) → is_listed o objects.items ≡ true
        → touched event.now facts.now o ≡ true) }
{
    match event {
        Event::FolderMade { row } => only(alloc, Object::Folder(row.id)),
        Event::FolderMoved { folder, .. } => folder_and_below(alloc, facts, *folder),
        Event::FolderGone { folder } => only(alloc, Object::Folder(*folder)),
        Event::GroupMade { row } => only(alloc, Object::Group(row.id)),
        Event::GroupMoved { group, .. } => only(alloc, Object::Group(*group)),
        Event::GroupGone { group } => only(alloc, Object::Group(*group)),
        Event::DefinitionMade { row } => only(alloc, Object::Def(row.id)),
        Event::DefinitionGone { definition } => only(alloc, Object::Def(*definition)),
        Event::AttributeMade { row } => only(alloc, Object::Attr(row.id)),
        Event::AttributeGone { attribute } => only(alloc, Object::Attr(*attribute)),
        Event::GrantAdded { row } => only(alloc, row.object),
        Event::GrantBegan { row } => only(alloc, row.object),
        Event::GrantRemoved { row } => only(alloc, row.object),
        Event::InheritAdded { row } => reached_by(alloc, facts, row),
        Event::InheritRemoved { row } => reached_by(alloc, facts, row),
        _ => Ok(Vec::new(alloc)),
    }
}
