// Refusals with their texts.
ghost use Rattle.std.specs.Prelude.{◌≡◌, IfOk};
ghost use Rattle.reg_view.specs.Show.{denied};

use reg_base::{Privilege, Text};
use reg_facts::Refusal;
use reg_terms::privilege_name;
use std::alloc::{AllocError, Global};

/// What is named by this text isn't there, or the caller doesn't see it.
pub fn not_found(alloc: Global, text: &str) -> Result<Refusal, AllocError>
    ensures { IfOk result (λ r. r ≡ Refusal.NotFound text.now) }
{
    let object = Text::new(alloc, text)?;
    Ok(Refusal::NotFound { object })
}

/// The caller lacks a privilege on the object of this name.
pub fn denied(alloc: Global, name: &str, privilege: Privilege) -> Result<Refusal, AllocError>
    ensures { IfOk result (λ r. r ≡ denied name.now privilege) }
{
    let object = Text::new(alloc, name)?;
    let privilege = Text::new(alloc, privilege_name(privilege))?;
    Ok(Refusal::Denied { object, privilege })
}

/// A field names a thing of a kind that it can't be.
pub fn wrong_kind(alloc: Global, field: &str) -> Result<Refusal, AllocError>
    ensures { IfOk result (λ r. r ≡ Refusal.WrongKind field.now) }
{
    let field = Text::new(alloc, field)?;
    Ok(Refusal::WrongKind { field })
}
