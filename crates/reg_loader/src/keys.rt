// Groups and persons by their numbers.
ghost use Rattle.std.specs.Prelude.{◌≡◌, List, IfOk};
ghost use Rattle.reg_loader.specs.Plan.{each_once, is_among, removed, same_key};
ghost use Rattle.reg_loader.specs.Plan.{Key as KeySeen};

use indexmap::IndexSet;
use std::alloc::{AllocError, Global};

/// A group by its id, or by the id that it gets when it is made, and a person by its id.
pub(crate) type Key = (u64, u32);

/// The set of these.
pub(crate) fn set_of(alloc: Global, keys: &[Key]) -> Result<IndexSet<Key>, AllocError>
    ensures { IfOk result (λ set. set.keys ≡ each_once same_key keys.now) }
{
    let mut set = IndexSet::new(alloc);
    for key in keys {
        set.insert(*key)?;
    }
    Ok(set)
}

/// Whether a set has it.
pub(crate) fn has(set: &IndexSet<Key>, key: Key) -> bool
    ensures value { result ≡ is_among key set.now.keys }
    ensures once { (keys : List KeySeen) → set.now.keys ≡ each_once same_key keys
        → result ≡ is_among key keys }
{
    set.contains(&key)
}

/// Those that aren't in a set.
pub(crate) fn without(
    alloc: Global,
    keys: &[Key],
    set: &IndexSet<Key>,
) -> Result<Vec<Key>, AllocError>
    ensures { IfOk result (λ left. left.items ≡ removed keys.now set.now.keys) }
{
    let mut left = Vec::new(alloc);
    for key in keys {
        if !has(set, *key) {
            left.push(*key)?;
        }
    }
    Ok(left)
}
