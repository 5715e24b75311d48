// The refusals.
ghost use Rattle.std.specs.Prelude.{◌≡◌, IfOk, Some, codes};
ghost use Rattle.reg_base.specs.Entities.{entity_of};
ghost use Rattle.reg_terms.specs.Privileges.{line_of};
ghost use Rattle.reg_demand.specs.Demands.{bare_text};

use reg_base::{Entity, Privilege, Text};
use reg_facts::Refusal;
use reg_terms::privilege_name;
use std::alloc::{AllocError, Global};

/// What is named doesn't stand, or the caller may not see it.
pub fn not_found(alloc: Global, text: &str) -> Result<Option<Refusal>, AllocError>
    ensures { IfOk result (λ found. found ≡ Some (Refusal.NotFound text.now)) }
{
    let object = Text::new(alloc, text)?;
    Ok(Some(Refusal::NotFound { object }))
}

/// The caller lacks a privilege on what has this name.
pub fn denied(
    alloc: Global,
    name: &str,
    privilege: Privilege,
) -> Result<Option<Refusal>, AllocError>
    ensures { IfOk result (λ found. found
        ≡ Some (Refusal.Denied name.now (line_of privilege).name)) }
{
    let object = Text::new(alloc, name)?;
    let privilege = Text::new(alloc, privilege_name(privilege))?;
    Ok(Some(Refusal::Denied { object, privilege }))
}

/// The caller isn't root.
pub fn not_root(alloc: Global) -> Result<Option<Refusal>, AllocError>
    ensures { IfOk result (λ found. found ≡ Some (Refusal.Denied (codes ":") (codes "ROOT"))) }
{
    let object = Text::new(alloc, ":")?;
    let privilege = Text::new(alloc, "ROOT")?;
    Ok(Some(Refusal::Denied { object, privilege }))
}

/// The name of the group that a text names as an entity, and else the text.
fn bare_text(alloc: Global, text: &Text) -> Result<Text, AllocError>
    ensures { IfOk result (λ bare. bare ≡ bare_text (entity_of text.now) text.now) }
{
    match Entity::parse(alloc, text.bytes())? {
        Some(Entity::Group(name)) => Text::new(alloc, name.as_str()),
        _ => text.copy(alloc),
    }
}

/// What a text names doesn't stand, or the caller may not see it.
pub fn object_not_found(alloc: Global, text: &Text) -> Result<Option<Refusal>, AllocError>
    ensures { IfOk result (λ found. found
        ≡ Some (Refusal.NotFound (bare_text (entity_of text.now) text.now))) }
{
    let object = bare_text(alloc, text)?;
    Ok(Some(Refusal::NotFound { object }))
}

/// The caller lacks a privilege on what a text names.
pub fn object_denied(
    alloc: Global,
    text: &Text,
    privilege: Privilege,
) -> Result<Option<Refusal>, AllocError>
    ensures { IfOk result (λ found. found
        ≡ Some (Refusal.Denied (bare_text (entity_of text.now) text.now)
        (line_of privilege).name)) }
{
    let bare = bare_text(alloc, text)?;
    denied(alloc, bare.as_str(), privilege)
}
