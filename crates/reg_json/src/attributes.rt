// The fields of requests about attributes.
ghost use Rattle.std.specs.Prelude.{◌≡◌, true, Some, None, option_and_then, if◌then◌else◌};
ghost use Rattle.serde_json.specs.Find.{as_str};
ghost use Rattle.serde_json.specs.View.{view, items_view};
ghost use Rattle.reg_ops.specs.Forms.{is_value, suits_some};
ghost use Rattle.reg_terms.specs.declared.kinds.Value.TheVariants as value;
ghost use Rattle.reg_json.specs.Steps.{Gives};
ghost use Rattle.reg_json.specs.Taking.{all_of};
ghost use Rattle.reg_json.specs.Attributes.{with_owner, owners_named, owners_at, flag_at, def_kind};
ghost use Rattle.reg_json.specs.Attributes.{def_kind_at, value_from, value_at};

use crate::fault::{ReadFault, bad};
use crate::fields::{ensured, is_display, text_at};
use reg_base::Text;
use reg_terms::{DefKind, Owners, Value as GivenValue};
use serde_json::Value;
use std::alloc::Global;

/// Kinds of owner with that of one more word, unless it is no such word or its kind is there.
#[tactic(auto, unfolding(crate::specs::Attributes::with_owner))]
fn with_owner(owners: Owners, word: &Value) -> Option<Owners>
    ensures { result ≡ option_and_then (with_owner owners) (as_str (view word.now)) }
{
    match word.as_str()? {
        "folder" if !owners.folder => Some(Owners {
            folder: true,
            ..owners
        }),
        "group" if !owners.group => Some(Owners {
            group: true,
            ..owners
        }),
        "subject" if !owners.subject => Some(Owners {
            subject: true,
            ..owners
        }),
        _ => None,
    }
}

/// The kinds of owner, if there is one at least.
fn some_owners(owners: Owners) -> Option<Owners>
    ensures { result ≡ (if suits_some owners then Some owners else None) }
{
    if owners.folder || owners.group || owners.subject {
        Some(owners)
    } else {
        None
    }
}

/// The kinds of owner that the texts of an array name, one at least and none twice.
#[tactic(auto, using(crate::proofs::Owners::owner_lemmas))]
fn owners_named(items: &[Value]) -> Option<Owners>
    ensures { result ≡ option_and_then owners_named (all_of as_str (items_view items.now)) }
{
    let mut owners = Owners {
        folder: false,
        group: false,
        subject: false,
    };
    for word in items {
        owners = with_owner(owners, word)?;
    }
    some_owners(owners)
}

/// The kinds of owner that a definition suits: a list of their words, one at least and none twice.
#[tactic(auto, unfolding(crate::specs::Attributes::owners_at, crate::specs::Taking::texts_in, crate::specs::Taking::items_in))]
pub fn owners_at(alloc: Global, value: &Value, key: &str) -> Result<Owners, ReadFault>
    ensures { Gives (λ o. o) result (owners_at key.now (view value.now)) }
{
    match value.get(key).and_then(Value::as_array) {
        Some(items) => match owners_named(items.as_slice()) {
            Some(owners) => Ok(owners),
            None => Err(bad(alloc, key)),
        },
        None => Err(bad(alloc, key)),
    }
}

/// A truth value, which has to be there.
#[tactic(auto, unfolding(crate::specs::Attributes::flag_at))]
pub fn flag_at(alloc: Global, value: &Value, key: &str) -> Result<bool, ReadFault>
    ensures { Gives (λ f. f) result (flag_at key.now (view value.now)) }
{
    match value.get(key).and_then(Value::as_bool) {
        Some(flag) => Ok(flag),
        None => Err(bad(alloc, key)),
    }
}

fn def_kind(word: &str) -> Option<DefKind>
    ensures { result ≡ def_kind word.now }
{
    match word {
        "marker" => Some(DefKind::Marker),
        "integer" => Some(DefKind::Integer),
        "text" => Some(DefKind::Text),
        "timestamp" => Some(DefKind::Timestamp),
        _ => None,
    }
}

/// The kind of values that attributes of a definition take, by its word.
#[tactic(auto, unfolding(crate::specs::Attributes::def_kind_at))]
pub fn def_kind_at(alloc: Global, value: &Value, key: &str) -> Result<DefKind, ReadFault>
    ensures { Gives (λ k. k) result (def_kind_at key.now (view value.now)) }
{
    let word = text_at(alloc, value, key)?;
    match def_kind(word) {
        Some(kind) => Ok(kind),
        None => Err(bad(alloc, key)),
    }
}

/// A whole number as a value, which may stand there whatever it is.
fn number_value(number: i64) -> GivenValue
    ensures value { result ≡ value.Int number }
    ensures fits { is_value result ≡ true }
{
    GivenValue::Int(number)
}

fn value_from(alloc: Global, found: &Value, key: &str) -> Result<GivenValue, ReadFault>
    ensures { Gives (λ v. v) result (value_from key.now (view found.now)) }
{
    if let Some(text) = found.as_str() {
        ensured(alloc, is_display(text), key)?;
        let text = Text::new(alloc, text)?;
        return Ok(GivenValue::Text(text));
    }
    match found.as_i64() {
        Some(number) => Ok(number_value(number)),
        None => Err(bad(alloc, key)),
    }
}

/// The value of an assignment: a text of at most 255 bytes, or a whole number of 64 bits. A
/// fraction, an exponent and `-0` are refused.
#[tactic(auto, unfolding(crate::specs::Attributes::value_at))]
pub fn value_at(alloc: Global, value: &Value, key: &str) -> Result<GivenValue, ReadFault>
    ensures { Gives (λ v. v) result (value_at key.now (view value.now)) }
{
    match value.get(key) {
        Some(found) => value_from(alloc, found, key),
        None => Err(bad(alloc, key)),
    }
}
