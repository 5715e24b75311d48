// What stands under a key of JSON data.
ghost use Rattle.std.specs.Prelude.{◌≡◌};
ghost use Rattle.serde_json.specs.Find.{get, as_str};
ghost use Rattle.serde_json.specs.View.{view, items_view};
ghost use Rattle.reg_json.specs.Takes.{Takes};
ghost use Rattle.reg_json.specs.Taking.{has, text_in, name_in, number_in, small_number_in};
ghost use Rattle.reg_json.specs.Taking.{optional_number_in, moment_in, moment_or_null};
ghost use Rattle.reg_json.specs.Taking.{optional_moment_in, items_in, all_of, texts_in};

use reg_base::{Moment, Name, Text};
use reg_terms::Texts;
use serde_json::Value;
use std::alloc::{AllocError, Global};
use thiserror::Error;

/// Why data weren't taken apart.
#[derive(Debug, Drop, Error)]
pub enum TakeFault {
    /// There was no memory.
    #[error("out of memory")]
    Memory,
    /// The data are no reply's.
    #[error("the data are no reply's")]
    Unlike,
}

impl From<AllocError> for TakeFault {
    ghost use Rattle.reg_json.specs.declared.taking.TakeFault.TheVariants.{Memory};

    ghost from_gives = { λ _ e. e ≡ Memory };

    fn from(_: AllocError) -> Self {
        TakeFault::Memory
    }
}

/// Whether something stands under a key.
#[tactic(auto, unfolding(crate::specs::Taking::has))]
pub fn has(value: &Value, key: &str) -> bool
    ensures { result ≡ has key.now (view value.now) }
{
    value.get(key).is_some()
}

/// What stands under a key.
pub fn value_in<'a>(value: &'a Value, key: &str) -> Result<&'a Value, TakeFault>
    ensures { Takes (λ v. view v.now) result (get key.now (view value.now)) }
{
    match value.get(key) {
        Some(found) => Ok(found),
        None => Err(TakeFault::Unlike),
    }
}

/// The text under a key.
#[tactic(auto, unfolding(crate::specs::Taking::text_in))]
pub fn str_in<'a>(value: &'a Value, key: &str) -> Result<&'a str, TakeFault>
    ensures { Takes (λ s. s.now) result (text_in key.now (view value.now)) }
{
    match value.get(key).and_then(Value::as_str) {
        Some(text) => Ok(text),
        None => Err(TakeFault::Unlike),
    }
}

/// A copy of the text under a key.
pub fn text_in(alloc: Global, value: &Value, key: &str) -> Result<Text, TakeFault>
    ensures { Takes (λ t. t) result (text_in key.now (view value.now)) }
{
    let text = str_in(value, key)?;
    let text = Text::new(alloc, text)?;
    Ok(text)
}

/// The name under a key.
#[tactic(auto, unfolding(crate::specs::Taking::name_in))]
pub fn name_in(alloc: Global, value: &Value, key: &str) -> Result<Name, TakeFault>
    ensures { Takes (λ n. n) result (name_in key.now (view value.now)) }
{
    let text = str_in(value, key)?;
    match Name::parse(alloc, text.as_bytes())? {
        Some(name) => Ok(name),
        None => Err(TakeFault::Unlike),
    }
}

/// The whole number under a key.
#[tactic(auto, unfolding(crate::specs::Taking::number_in))]
pub fn number_in(value: &Value, key: &str) -> Result<u64, TakeFault>
    ensures { Takes (λ n. n) result (number_in key.now (view value.now)) }
{
    match value.get(key).and_then(Value::as_u64) {
        Some(number) => Ok(number),
        None => Err(TakeFault::Unlike),
    }
}

/// The whole number of 32 bits under a key.
#[tactic(auto, unfolding(crate::specs::Taking::small_number_in))]
pub fn small_number_in(value: &Value, key: &str) -> Result<u32, TakeFault>
    ensures { Takes (λ n. n) result (small_number_in key.now (view value.now)) }
{
    let number = number_in(value, key)?;
    match u32::try_from(number) {
        Ok(number) => Ok(number),
        Err(_) => Err(TakeFault::Unlike),
    }
}

/// The whole number under a key, or none where nothing stands there.
#[tactic(auto, unfolding(crate::specs::Taking::optional_number_in))]
pub fn optional_number_in(value: &Value, key: &str) -> Result<Option<u64>, TakeFault>
    ensures { Takes (λ n. n) result (optional_number_in key.now (view value.now)) }
{
    if has(value, key) {
        let number = number_in(value, key)?;
        Ok(Some(number))
    } else {
        Ok(None)
    }
}

/// The moment whose text stands under a key.
#[tactic(auto, unfolding(crate::specs::Taking::moment_in))]
pub fn moment_in(value: &Value, key: &str) -> Result<Moment, TakeFault>
    ensures { Takes (λ m. m) result (moment_in key.now (view value.now)) }
{
    let text = str_in(value, key)?;
    match Moment::parse(text.as_bytes()) {
        Some(moment) => Ok(moment),
        None => Err(TakeFault::Unlike),
    }
}

#[tactic(auto, unfolding(crate::specs::Taking::moment_or_null))]
fn moment_or_null(value: &Value) -> Result<Option<Moment>, TakeFault>
    ensures { Takes (λ m. m) result (moment_or_null (view value.now)) }
{
    if value.is_null() {
        return Ok(None);
    }
    let Some(text) = value.as_str() else {
        return Err(TakeFault::Unlike);
    };
    match Moment::parse(text.as_bytes()) {
        Some(moment) => Ok(Some(moment)),
        None => Err(TakeFault::Unlike),
    }
}

/// The moment whose text stands under a key, or none where null does.
#[tactic(auto, unfolding(crate::specs::Taking::optional_moment_in))]
pub fn optional_moment_in(value: &Value, key: &str) -> Result<Option<Moment>, TakeFault>
    ensures { Takes (λ m. m) result (optional_moment_in key.now (view value.now)) }
{
    let found = value_in(value, key)?;
    moment_or_null(found)
}

/// The items of the array under a key.
#[tactic(auto, unfolding(crate::specs::Taking::items_in))]
pub fn items_in<'a>(value: &'a Value, key: &str) -> Result<&'a [Value], TakeFault>
    ensures { Takes (λ vs. items_view vs.now) result (items_in key.now (view value.now)) }
{
    match value.get(key).and_then(Value::as_array) {
        Some(items) => Ok(items.as_slice()),
        None => Err(TakeFault::Unlike),
    }
}

#[tactic(auto, using(crate::proofs::Takings::taken_lemmas))]
fn texts_of(alloc: Global, items: &[Value]) -> Result<Texts, TakeFault>
    ensures { Takes (λ ts. ts) result (all_of as_str (items_view items.now)) }
{
    let mut texts = Texts::new(alloc);
    for item in items {
        match item.as_str() {
            Some(text) => texts.push(text)?,
            None => return Err(TakeFault::Unlike),
        }
    }
    Ok(texts)
}

/// The texts of the array under a key.
#[tactic(auto, unfolding(crate::specs::Taking::texts_in))]
pub fn texts_in(alloc: Global, value: &Value, key: &str) -> Result<Texts, TakeFault>
    ensures { Takes (λ ts. ts) result (texts_in key.now (view value.now)) }
{
    let items = items_in(value, key)?;
    texts_of(alloc, items)
}
