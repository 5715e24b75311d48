// What queries show, taken from JSON data.
ghost use Rattle.std.specs.Prelude.{◌≡◌};
ghost use Rattle.serde_json.specs.View.{view, items_view};
ghost use Rattle.reg_json.specs.Takes.{Takes};
ghost use Rattle.reg_json.specs.Taking.{all_of, row_from, kind_in, factors_from, factors_or_null};
ghost use Rattle.reg_json.specs.Taking.{privilege_from, privilege_in, grant_from, span_from};
ghost use Rattle.reg_json.specs.Taking.{entry_kind_in, entry_from};

use crate::fields::composite_kind;
use crate::taking::{
    TakeFault, moment_in, number_in, optional_moment_in, str_in, text_in, value_in,
};
use reg_base::Privilege;
use reg_terms::{
    EntriesShown, EntryKind, EntryShown, FactorsShown, GrantShown, GrantsShown, Privileges,
    RowShown, RowsShown, SetOp, SpanShown, SpansShown, privilege_named,
};
use serde_json::Value;
use std::alloc::Global;

#[tactic(auto, unfolding(crate::specs::Taking::row_from))]
fn row_from(alloc: Global, value: &Value) -> Result<RowShown, TakeFault>
    ensures { Takes (λ r. r) result (row_from (view value.now)) }
{
    let from = moment_in(value, "from")?;
    let until = optional_moment_in(value, "until")?;
    let member = text_in(alloc, value, "member")?;
    Ok(RowShown {
        from,
        member,
        until,
    })
}

/// The immediate memberships of an array. The only error besides unlike data is out of memory.
#[tactic(auto, using(crate::proofs::Takings::taken_lemmas))]
pub fn rows_of(alloc: Global, items: &[Value]) -> Result<RowsShown, TakeFault>
    ensures { Takes (λ rs. rs) result (all_of row_from (items_view items.now)) }
{
    let mut rows = RowsShown::new(alloc);
    for item in items {
        let row = row_from(alloc, item)?;
        rows.push(row)?;
    }
    Ok(rows)
}

#[tactic(auto, unfolding(crate::specs::Taking::kind_in))]
fn kind_in(value: &Value, key: &str) -> Result<SetOp, TakeFault>
    ensures { Takes (λ k. k) result (kind_in key.now (view value.now)) }
{
    let word = str_in(value, key)?;
    match composite_kind(word) {
        Some(kind) => Ok(kind),
        None => Err(TakeFault::Unlike),
    }
}

#[tactic(auto, unfolding(crate::specs::Taking::factors_from))]
fn factors_from(alloc: Global, value: &Value) -> Result<FactorsShown, TakeFault>
    ensures { Takes (λ f. f) result (factors_from (view value.now)) }
{
    let kind = kind_in(value, "kind")?;
    let left = text_in(alloc, value, "left")?;
    let right = text_in(alloc, value, "right")?;
    Ok(FactorsShown { kind, left, right })
}

/// The factors of a composite group, or none where null stands.
#[tactic(auto, unfolding(crate::specs::Taking::factors_or_null))]
pub fn factors_or_null(alloc: Global, value: &Value) -> Result<Option<FactorsShown>, TakeFault>
    ensures { Takes (λ f. f) result (factors_or_null (view value.now)) }
{
    if value.is_null() {
        return Ok(None);
    }
    match factors_from(alloc, value) {
        Ok(factors) => Ok(Some(factors)),
        Err(fault) => Err(fault),
    }
}

#[tactic(auto, unfolding(crate::specs::Taking::privilege_from))]
fn privilege_from(value: &Value) -> Result<Privilege, TakeFault>
    ensures { Takes (λ p. p) result (privilege_from (view value.now)) }
{
    let Some(word) = value.as_str() else {
        return Err(TakeFault::Unlike);
    };
    match privilege_named(word) {
        Some(privilege) => Ok(privilege),
        None => Err(TakeFault::Unlike),
    }
}

/// The privileges of an array of their names.
#[tactic(auto, using(crate::proofs::Takings::taken_lemmas))]
pub fn privileges_of(alloc: Global, items: &[Value]) -> Result<Privileges, TakeFault>
    ensures { Takes (λ ps. ps) result (all_of privilege_from (items_view items.now)) }
{
    let mut privileges = Privileges::new(alloc);
    for item in items {
        let privilege = privilege_from(item)?;
        privileges.push(privilege)?;
    }
    Ok(privileges)
}

/// The privilege under a key, by its name.
#[tactic(auto, unfolding(crate::specs::Taking::privilege_in))]
pub fn privilege_in(value: &Value, key: &str) -> Result<Privilege, TakeFault>
    ensures { Takes (λ p. p) result (privilege_in key.now (view value.now)) }
{
    let found = value_in(value, key)?;
    privilege_from(found)
}

#[tactic(auto, unfolding(crate::specs::Taking::grant_from))]
fn grant_from(alloc: Global, value: &Value) -> Result<GrantShown, TakeFault>
    ensures { Takes (λ g. g) result (grant_from (view value.now)) }
{
    let privilege = privilege_in(value, "privilege")?;
    let holder = text_in(alloc, value, "holder")?;
    Ok(GrantShown { holder, privilege })
}

/// The grants of an array.
#[tactic(auto, using(crate::proofs::Takings::taken_lemmas))]
pub fn grants_of(alloc: Global, items: &[Value]) -> Result<GrantsShown, TakeFault>
    ensures { Takes (λ gs. gs) result (all_of grant_from (items_view items.now)) }
{
    let mut grants = GrantsShown::new(alloc);
    for item in items {
        let grant = grant_from(alloc, item)?;
        grants.push(grant)?;
    }
    Ok(grants)
}

#[tactic(auto, unfolding(crate::specs::Taking::span_from))]
fn span_from(alloc: Global, value: &Value) -> Result<SpanShown, TakeFault>
    ensures { Takes (λ s. s) result (span_from (view value.now)) }
{
    let from = moment_in(value, "from")?;
    let to = optional_moment_in(value, "to")?;
    let subject = text_in(alloc, value, "subject")?;
    Ok(SpanShown { from, subject, to })
}

/// The times of an array in which persons were members.
#[tactic(auto, using(crate::proofs::Takings::taken_lemmas))]
pub fn spans_of(alloc: Global, items: &[Value]) -> Result<SpansShown, TakeFault>
    ensures { Takes (λ ss. ss) result (all_of span_from (items_view items.now)) }
{
    let mut spans = SpansShown::new(alloc);
    for item in items {
        let span = span_from(alloc, item)?;
        spans.push(span)?;
    }
    Ok(spans)
}

#[tactic(auto, unfolding(crate::specs::Taking::entry_kind_in))]
fn entry_kind_in(value: &Value, key: &str) -> Result<EntryKind, TakeFault>
    ensures { Takes (λ k. k) result (entry_kind_in key.now (view value.now)) }
{
    let word = str_in(value, key)?;
    match EntryKind::parse(word) {
        Some(kind) => Ok(kind),
        None => Err(TakeFault::Unlike),
    }
}

#[tactic(auto, unfolding(crate::specs::Taking::entry_from))]
fn entry_from(alloc: Global, value: &Value) -> Result<EntryShown, TakeFault>
    ensures { Takes (λ e. e) result (entry_from (view value.now)) }
{
    let at = moment_in(value, "at")?;
    let kind = entry_kind_in(value, "kind")?;
    let number = number_in(value, "number")?;
    let seq = number_in(value, "seq")?;
    let entity = text_in(alloc, value, "entity")?;
    let object = text_in(alloc, value, "object")?;
    Ok(EntryShown {
        at,
        entity,
        kind,
        number,
        object,
        seq,
    })
}

/// The entries of an array.
#[tactic(auto, using(crate::proofs::Takings::taken_lemmas))]
pub fn entries_of(alloc: Global, items: &[Value]) -> Result<EntriesShown, TakeFault>
    ensures { Takes (λ es. es) result (all_of entry_from (items_view items.now)) }
{
    let mut entries = EntriesShown::new(alloc);
    for item in items {
        let entry = entry_from(alloc, item)?;
        entries.push(entry)?;
    }
    Ok(entries)
}
