// Owners and values against definitions.
ghost use Rattle.std.specs.Prelude.{◌≡◌, IfOk, IsSome};
ghost use Rattle.reg_facts.specs.Attributes.{assign_row, definition_row};
ghost use Rattle.reg_attr.specs.Checks.{beside, check_assign, check_value};

use reg_base::{AssignId, AttrDefId};
use reg_facts::{AttrValue, AttrValues, Facts, Object, Value};
use std::alloc::{AllocError, Global};
use thiserror::Error;

/// Why a definition refuses an owner or a value.
#[derive(Clone, Copy, Debug, PartialEq, Eq, Error)]
pub enum AttrFault {
    /// The definition doesn't suit owners of this kind.
    #[error("the definition doesn't suit owners of this kind")]
    WrongOwner,
    /// The definition doesn't take the value: it isn't of its kind.
    #[error("the value isn't of the definition's kind")]
    WrongValue,
    /// A value stands, and the definition isn't for many.
    #[error("a value stands, and the definition isn't for many")]
    Single,
}

/// Whether attributes of a definition, which must stand, may be assigned to an owner. WrongOwner
/// exactly where the definition doesn't suit the owner's kind; it suits no definition and no
/// attribute. It takes no memory.
pub fn check_assign(facts: &Facts, definition: AttrDefId, owner: Object) -> Result<(), AttrFault>
    requires { IsSome (definition_row definition facts.now.definitions) }
    ensures { result ≡ check_assign definition owner facts.now }
{
    let Some(row) = facts.definition(definition) else {
        unreachable!()
    };
    if row.owners.suits(owner) {
        Ok(())
    } else {
        Err(AttrFault::WrongOwner)
    }
}

/// A value, if it is taken, beside those that stand.
fn beside(values: &AttrValues, many: bool, taken: Option<AttrValue>) -> Result<AttrValue, AttrFault>
    ensures { result ≡ beside values.now many taken }
{
    match taken {
        Some(_) if !many && values.len() > 0 => Err(AttrFault::Single),
        Some(value) => Ok(value),
        None => Err(AttrFault::WrongValue),
    }
}

/// A value as the definition of an assignment's attribute takes it; the assignment must stand.
/// WrongValue exactly where the definition doesn't take the value, as it isn't of its kind, and
/// else Single exactly where it isn't for many values and the assignment has one. The only other
/// error is out of memory.
pub fn check_value(
    facts: &Facts,
    alloc: Global,
    assign: AssignId,
    value: &Value,
) -> Result<Result<AttrValue, AttrFault>, AllocError>
    requires { IsSome (assign_row assign facts.now.assigns) }
    ensures { IfOk result (λ checked. checked ≡ check_value assign value.now facts.now) }
{
    let Some(row) = facts.assign(u64::from(assign.number())) else {
        unreachable!()
    };
    let Some(definition) = facts.definition_of(row.attribute) else {
        return Ok(Err(AttrFault::WrongValue));
    };
    let taken = value.taken(alloc, definition.kind)?;
    Ok(beside(&row.values, definition.many, taken))
}
