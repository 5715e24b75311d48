// Refusals, taken from JSON data.
ghost use Rattle.std.specs.Prelude.{◌≡◌};
ghost use Rattle.serde_json.specs.View.{view};
ghost use Rattle.reg_json.specs.Takes.{Takes};
ghost use Rattle.reg_json.specs.Taking.{bare_refusal, http_refusal, field_refusal, object_refusal};
ghost use Rattle.reg_json.specs.Taking.{denied_from, future_from, place_from, full_from};
ghost use Rattle.reg_json.specs.Taking.{limit_from, named_from, with_object, with_field};
ghost use Rattle.reg_json.specs.Taking.{with_nothing, failsafe_from, load_refusal, other_refusal};
ghost use Rattle.reg_json.specs.Taking.{refusal_from};

use crate::taking::{TakeFault, has, moment_in, number_in, text_in};
use reg_base::Text;
use reg_terms::Refusal;
use serde_json::Value;
use std::alloc::Global;

#[tactic(auto, unfolding(crate::specs::Taking::bare_refusal))]
fn bare_refusal(code: u64) -> Result<Refusal, TakeFault>
    ensures { Takes (λ r. r) result (bare_refusal code) }
{
    match code {
        5 => Ok(Refusal::NoCaller),
        9 => Ok(Refusal::BadWindow),
        12 => Ok(Refusal::Already),
        13 => Ok(Refusal::NoSuch),
        15 => Ok(Refusal::HasMembers),
        18 => Ok(Refusal::NotEmpty),
        19 => Ok(Refusal::WrongOwner),
        20 => Ok(Refusal::WrongValue),
        21 => Ok(Refusal::Single),
        _ => Err(TakeFault::Unlike),
    }
}

#[tactic(auto, unfolding(crate::specs::Taking::http_refusal))]
fn http_refusal(code: u64) -> Result<Refusal, TakeFault>
    ensures { Takes (λ r. r) result (http_refusal code) }
{
    match code {
        30 => Ok(Refusal::NoRoute),
        31 => Ok(Refusal::NoMethod),
        32 => Ok(Refusal::NoLength),
        33 => Ok(Refusal::Coding),
        34 => Ok(Refusal::HeadTooLong),
        35 => Ok(Refusal::NoCallerHeader),
        36 => Ok(Refusal::BadHead),
        _ => Err(TakeFault::Unlike),
    }
}

#[tactic(auto, unfolding(crate::specs::Taking::with_nothing))]
fn with_nothing(code: u64) -> Result<Refusal, TakeFault>
    ensures { Takes (λ r. r) result (with_nothing code) }
{
    if code < 30 {
        bare_refusal(code)
    } else {
        http_refusal(code)
    }
}

#[tactic(auto, unfolding(crate::specs::Taking::field_refusal))]
fn field_refusal(code: u64, field: Text) -> Result<Refusal, TakeFault>
    ensures { Takes (λ r. r) result (field_refusal code field) }
{
    match code {
        2 => Ok(Refusal::BadRequest { field }),
        3 => Ok(Refusal::BadName { field }),
        4 => Ok(Refusal::BadMoment { field }),
        10 => Ok(Refusal::WrongKind { field }),
        _ => Err(TakeFault::Unlike),
    }
}

#[tactic(auto, unfolding(crate::specs::Taking::with_field))]
fn with_field(alloc: Global, code: u64, value: &Value) -> Result<Refusal, TakeFault>
    ensures { Takes (λ r. r) result (with_field code (view value.now)) }
{
    let field = text_in(alloc, value, "field")?;
    field_refusal(code, field)
}

#[tactic(auto, unfolding(crate::specs::Taking::object_refusal))]
fn object_refusal(code: u64, object: Text) -> Result<Refusal, TakeFault>
    ensures { Takes (λ r. r) result (object_refusal code object) }
{
    match code {
        6 => Ok(Refusal::NotFound { object }),
        11 => Ok(Refusal::Taken { object }),
        14 => Ok(Refusal::IsComposite { object }),
        16 => Ok(Refusal::Circular { object }),
        _ => Err(TakeFault::Unlike),
    }
}

#[tactic(auto, unfolding(crate::specs::Taking::denied_from))]
fn denied_from(alloc: Global, value: &Value) -> Result<Refusal, TakeFault>
    ensures { Takes (λ r. r) result (denied_from (view value.now)) }
{
    let object = text_in(alloc, value, "object")?;
    let privilege = text_in(alloc, value, "privilege")?;
    Ok(Refusal::Denied { object, privilege })
}

#[tactic(auto, unfolding(crate::specs::Taking::named_from))]
fn named_from(alloc: Global, code: u64, value: &Value) -> Result<Refusal, TakeFault>
    ensures { Takes (λ r. r) result (named_from code (view value.now)) }
{
    let object = text_in(alloc, value, "object")?;
    object_refusal(code, object)
}

#[tactic(auto, unfolding(crate::specs::Taking::with_object))]
fn with_object(alloc: Global, code: u64, value: &Value) -> Result<Refusal, TakeFault>
    ensures { Takes (λ r. r) result (with_object code (view value.now)) }
{
    if has(value, "privilege") {
        denied_from(alloc, value)
    } else {
        named_from(alloc, code, value)
    }
}

#[tactic(auto, unfolding(crate::specs::Taking::future_from))]
fn future_from(value: &Value) -> Result<Refusal, TakeFault>
    ensures { Takes (λ r. r) result (future_from (view value.now)) }
{
    let asked = moment_in(value, "asked")?;
    let clock = moment_in(value, "clock")?;
    Ok(Refusal::Future { asked, clock })
}

#[tactic(auto, unfolding(crate::specs::Taking::place_from))]
fn place_from(value: &Value) -> Result<Refusal, TakeFault>
    ensures { Takes (λ r. r) result (place_from (view value.now)) }
{
    let kept = number_in(value, "kept")?;
    let last = number_in(value, "last")?;
    Ok(Refusal::Place { kept, last })
}

#[tactic(auto, unfolding(crate::specs::Taking::full_from))]
fn full_from(alloc: Global, value: &Value) -> Result<Refusal, TakeFault>
    ensures { Takes (λ r. r) result (full_from (view value.now)) }
{
    let kind = text_in(alloc, value, "kind")?;
    let limit = number_in(value, "limit")?;
    Ok(Refusal::Full { kind, limit })
}

#[tactic(auto, unfolding(crate::specs::Taking::limit_from))]
fn limit_from(alloc: Global, value: &Value) -> Result<Refusal, TakeFault>
    ensures { Takes (λ r. r) result (limit_from (view value.now)) }
{
    if has(value, "kind") {
        return full_from(alloc, value);
    }
    let limit = number_in(value, "limit")?;
    Ok(Refusal::TooLong { limit })
}

#[tactic(auto, unfolding(crate::specs::Taking::failsafe_from))]
fn failsafe_from(value: &Value) -> Result<Refusal, TakeFault>
    ensures { Takes (λ r. r) result (failsafe_from (view value.now)) }
{
    let before = number_in(value, "before")?;
    let removes = number_in(value, "removes")?;
    Ok(Refusal::Failsafe { before, removes })
}

#[tactic(auto, unfolding(crate::specs::Taking::load_refusal))]
fn load_refusal(code: u64, value: &Value) -> Result<Refusal, TakeFault>
    ensures { Takes (λ r. r) result (load_refusal code (view value.now)) }
{
    if has(value, "record") {
        let row = number_in(value, "record")?;
        Ok(Refusal::BadTable { row })
    } else if has(value, "before") {
        failsafe_from(value)
    } else {
        with_nothing(code)
    }
}

#[tactic(auto, unfolding(crate::specs::Taking::other_refusal))]
fn other_refusal(alloc: Global, code: u64, value: &Value) -> Result<Refusal, TakeFault>
    ensures { Takes (λ r. r) result (other_refusal code (view value.now)) }
{
    if has(value, "limit") {
        limit_from(alloc, value)
    } else if has(value, "asked") {
        future_from(value)
    } else if has(value, "kept") {
        place_from(value)
    } else if has(value, "rule") {
        let rule = number_in(value, "rule")?;
        Ok(Refusal::Vetoed { rule })
    } else if has(value, "number") {
        let number = number_in(value, "number")?;
        Ok(Refusal::OtherCommand { number })
    } else {
        load_refusal(code, value)
    }
}

/// The refusal that data say.
#[tactic(auto, unfolding(crate::specs::Taking::refusal_from))]
pub fn refusal_from(alloc: Global, value: &Value) -> Result<Refusal, TakeFault>
    ensures { Takes (λ r. r) result (refusal_from (view value.now)) }
{
    let code = number_in(value, "code")?;
    if has(value, "field") {
        with_field(alloc, code, value)
    } else if has(value, "object") {
        with_object(alloc, code, value)
    } else if has(value, "use") {
        let used = text_in(alloc, value, "use")?;
        Ok(Refusal::InUse { used })
    } else {
        other_refusal(alloc, code, value)
    }
}
