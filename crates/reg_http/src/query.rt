//! The query of a target.

ghost use Rattle.std.specs.Prelude.{◌≡◌, ℕ, List, [], IfOk, Option, bytes_eq};
ghost use Rattle.std.specs.List.{list_any};
ghost use Rattle.std.specs.Cow.{cow_str_bytes};
ghost use Rattle.reg_http.specs.Queries.{pairs, has, lists, wrong_key, value_of, number_of};

use crate::route::Route;
use reg_base::Text;
use std::alloc::{AllocError, Global};
use std::borrow::CowStr;

/// A key of a query, and its value.
#[derive(Drop)]
pub(crate) struct Pair {
    pub(crate) key: Text,
    pub(crate) value: Text,
}

/// The pair, kept.
fn kept(alloc: Global, pair: (CowStr, CowStr)) -> Result<Pair, AllocError>
    ensures key { IfOk result (λ kept. kept.key ≡ cow_str_bytes pair.entry.0) }
    ensures value { IfOk result (λ kept. kept.value ≡ cow_str_bytes pair.entry.1) }
{
    let (key, value) = pair;
    Ok(Pair {
        key: Text::new(alloc, key.as_str())?,
        value: Text::new(alloc, value.as_str())?,
    })
}

/// The pairs of a query, in order.
pub(crate) fn read_pairs(alloc: Global, query: &[u8]) -> Result<Vec<Pair>, AllocError>
    ensures { IfOk result (λ found. found.items ≡ pairs query.now) }
{
    let mut found = Vec::new(alloc);
    for pair in form_urlencoded::parse(alloc, query) {
        found.push(kept(alloc, pair?)?)?;
    }
    Ok(found)
}

/// Whether the route takes this key.
fn lists(route: Route, key: &[u8]) -> bool
    ensures { result ≡ lists route key.now }
{
    match route {
        Route::Members | Route::Groups | Route::Grants | Route::Attributes => key
            == b"at".as_slice(),
        Route::Privileges => key == b"entity".as_slice() || key == b"at".as_slice(),
        Route::Log => key == b"max".as_slice(),
        _ => false,
    }
}

/// Whether a pair has this key.
fn has(pairs: &[Pair], key: &[u8]) -> bool
    ensures { result ≡ has key.now pairs.now }
{
    pairs.iter().any(|pair| pair.key.bytes() == key)
}

/// The first key that the route doesn't take, or that comes twice.
pub(crate) fn wrong_key(
    alloc: Global,
    route: Route,
    pairs: &[Pair],
) -> Result<Option<Text>, AllocError>
    ensures { IfOk result (λ key. key ≡ wrong_key route [] pairs.now) }
{
    for (i, pair) in pairs.iter().enumerate() {
        if !lists(route, pair.key.bytes()) || has(&pairs[..i], pair.key.bytes()) {
            return Ok(Some(pair.key.copy(alloc)?));
        }
    }
    Ok(None)
}

/// The value of this key, if it stands.
pub(crate) fn value_of(
    alloc: Global,
    pairs: &[Pair],
    key: &[u8],
) -> Result<Option<Text>, AllocError>
    ensures { IfOk result (λ value. value ≡ value_of key.now pairs.now) }
{
    for pair in pairs {
        if pair.key.bytes() == key {
            return Ok(Some(pair.value.copy(alloc)?));
        }
    }
    Ok(None)
}

/// The number from 1 to 1,000 that 1 to 20 digits give; None for any other text.
pub(crate) fn number_of(text: &[u8]) -> Option<u64>
    ensures { result ≡ number_of text.now }
{
    if text.len() > 20 {
        return None;
    }
    let mut number: u64 = 0;
    for digit in text {
        if !digit.is_ascii_digit() {
            return None;
        }
        number = number * 10 + u64::from(*digit - b'0');
        if number > 1000 {
            return None;
        }
    }
    if number == 0 { None } else { Some(number) }
}
