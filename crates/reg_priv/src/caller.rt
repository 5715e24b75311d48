//! The same questions asked of a caller as it is written in a request.
ghost use Rattle.std.specs.Prelude.{◌≡◌, Ok};
ghost use Rattle.reg_priv.specs.Callers.{caller_is_root, caller_may};

use crate::{judging, who_of};
use reg_base::{Entity, Privilege};
use reg_effect::Kept;
use reg_facts::{Facts, Object};
use reg_names::Names;
use std::alloc::AllocError;

/// Whether a caller may do everything; what is no caller may not. It takes no memory, and is
/// never an error.
pub fn is_root<K: Kept>(
    facts: &Facts,
    names: &Names,
    kept: &K,
    caller: &Entity,
) -> Result<bool, AllocError>
    ensures { result ≡ Ok (caller_is_root (K.held kept.now) facts.now caller.now) }
{
    let _ = names;
    match who_of(facts, caller) {
        Some(who) => Ok(judging::is_root(facts, kept, &who)),
        None => Ok(false),
    }
}

/// Whether a caller has a privilege on an object; what is no caller has none. It takes no
/// memory, and is never an error.
pub fn may<K: Kept>(
    facts: &Facts,
    names: &Names,
    kept: &K,
    caller: &Entity,
    object: &Object,
    privilege: Privilege,
) -> Result<bool, AllocError>
    ensures { result ≡ Ok (caller_may (K.held kept.now) facts.now caller.now object.now privilege) }
{
    let _ = names;
    match who_of(facts, caller) {
        Some(who) => Ok(judging::may(facts, kept, &who, object, privilege)),
        None => Ok(false),
    }
}
