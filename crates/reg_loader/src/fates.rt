// What comes of the pairs that a table names.
ghost use Rattle.std.specs.Prelude.{◌≡◌, length, List, IfOk};
ghost use Rattle.reg_loader.specs.Plan.{added, each_once, is_forbidden, same_key, unchanged};
ghost use Rattle.reg_loader.specs.Plan.{vetoed};

use crate::keys::{Key, has, set_of};
use indexmap::IndexSet;
use reg_base::{GroupId, SubjectId};
use reg_effect::Kept;
use reg_facts::Facts;
use reg_rules::veto;
use std::alloc::{AllocError, Global};

/// What comes of them.
#[derive(Drop)]
pub(crate) struct Fates {
    pub added: Vec<Key>,
    pub unchanged: u64,
    pub vetoed: u64,
}

/// Whether a veto forbids a person in a group. There is none on a group that is to be made.
fn is_forbidden<K: Kept>(facts: &Facts, kept: &K, key: Key) -> bool
    ensures { result ≡ is_forbidden (K.held kept.now) facts.now key }
{
    let (group, person) = key;
    if group > u64::from(facts.made().groups) {
        return false;
    }
    let group = GroupId::new(group as u32);
    veto(facts, kept, group, SubjectId::new(person)).is_some()
}

/// Tells those that have a membership, those that a veto forbids, and those that are added.
fn told<K: Kept>(
    alloc: Global,
    facts: &Facts,
    kept: &K,
    keys: &[Key],
    there: &IndexSet<Key>,
) -> Result<Fates, AllocError>
    ensures added { IfOk result (λ fates. fates.added.items
        ≡ added (K.held kept.now) there.now.keys facts.now keys.now) }
    ensures unchanged { IfOk result (λ fates. fates.unchanged
        ≡ length (unchanged there.now.keys keys.now)) }
    ensures vetoed { IfOk result (λ fates. fates.vetoed
        ≡ length (vetoed (K.held kept.now) there.now.keys facts.now keys.now)) }
{
    let mut fates = Fates {
        added: Vec::new(alloc),
        unchanged: 0,
        vetoed: 0,
    };
    for key in keys {
        if has(there, *key) {
            fates.unchanged += 1;
        } else if is_forbidden(facts, kept, *key) {
            fates.vetoed += 1;
        } else {
            fates.added.push(*key)?;
        }
    }
    Ok(fates)
}

/// The same where these memberships stand.
pub(crate) fn fates_of<K: Kept>(
    alloc: Global,
    facts: &Facts,
    kept: &K,
    keys: &[Key],
    there: &[Key],
) -> Result<Fates, AllocError>
    ensures added { IfOk result (λ fates. fates.added.items
        ≡ added (K.held kept.now) there.now facts.now keys.now) }
    ensures unchanged { IfOk result (λ fates. fates.unchanged
        ≡ length (unchanged there.now keys.now)) }
    ensures vetoed { IfOk result (λ fates. fates.vetoed
        ≡ length (vetoed (K.held kept.now) there.now facts.now keys.now)) }
{
    let set = set_of(alloc, there)?;
    told(alloc, facts, kept, keys, &set)
}
