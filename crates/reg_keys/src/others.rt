// The places that are found by the texts of caller and key.
ghost use Rattle.std.specs.Prelude.{◌≡◌, ◌&&◌, ℕ, List, None, Some, OnOk, OnErr};
ghost use Rattle.std.specs.Prelude.{if◌then◌else◌};
ghost use Rattle.std.specs.Str.{bytes_eq};
ghost use Rattle.reg_keys.specs.Places.{at_key, other_in};

use std::alloc::{AllocError, Global};
use std::collections::BTreeMap;

/// Puts a place under a caller and a key. Out of memory each caller has the keys that it had.
pub(crate) fn add_place(
    alloc: Global,
    callers: &mut BTreeMap<Vec<u8>, BTreeMap<Vec<u8>, usize>>,
    by: &[u8],
    key: &[u8],
    place: usize,
) -> Result<(), AllocError>
    ensures added { OnOk result ((b k : List ℕ) → other_in callers.new b k
        ≡ (if bytes_eq by.now b && bytes_eq key.now k then Some place
        else other_in callers.old b k)) }
    ensures err { OnErr result ((b k : List ℕ) → other_in callers.new b k
        ≡ other_in callers.old b k) }
{
    let key = Vec::from_slice(alloc, key)?;
    if let Some(keys) = callers.get_mut(by) {
        keys.insert(key, place)?;
        return Ok(());
    }
    add_caller(alloc, callers, by, key, place)
}

/// A caller's first key. Out of memory each caller has the keys that it had.
fn add_caller(
    alloc: Global,
    callers: &mut BTreeMap<Vec<u8>, BTreeMap<Vec<u8>, usize>>,
    by: &[u8],
    key: Vec<u8>,
    place: usize,
) -> Result<(), AllocError>
    requires { at_key callers.old by.now ≡ None }
    ensures added { OnOk result ((b k : List ℕ) → other_in callers.new b k
        ≡ (if bytes_eq by.now b && bytes_eq key.items k then Some place
        else other_in callers.old b k)) }
    ensures err { OnErr result ((b k : List ℕ) → other_in callers.new b k
        ≡ other_in callers.old b k) }
{
    let by = Vec::from_slice(alloc, by)?;
    let mut keys = BTreeMap::new(alloc);
    keys.insert(key, place)?;
    callers.insert(by, keys)?;
    Ok(())
}
