// What comes before all else that may refuse a command about rules.
ghost use Rattle.std.specs.Prelude.{◌≡◌, ◌∷◌, [], IfOk};
ghost use Rattle.reg_demand.specs.Demands.{Root};
ghost use Rattle.reg_demand.specs.Refusing.{first_of, denial, no_entity, no_folder, no_group};

use crate::finding::{is_missing, is_unseen, named_text};
use crate::refusals::not_found;
use crate::subjects::demand_root;
use reg_base::{Entity, Name, Text};
use reg_effect::Kept;
use reg_facts::{Facts, Refusal};
use reg_priv::Who;
use std::alloc::{AllocError, Global};

/// A rule of two groups: the caller sees both, and is root.
pub fn rule_of_groups<K: Kept>(
    alloc: Global,
    facts: &Facts,
    kept: &K,
    who: &Who,
    first: &Name,
    second: &Name,
) -> Result<Option<Refusal>, AllocError>
    ensures { IfOk result (λ found. found
        ≡ first_of (no_group (K.held kept.now) facts.now who.now first.now
        ∷ no_group (K.held kept.now) facts.now who.now second.now
        ∷ denial (K.held kept.now) facts.now who.now Root ∷ [])) }
{
    if is_unseen(facts, kept, who, &facts.group_id(first.as_str())) {
        return not_found(alloc, first.as_str());
    }
    if is_unseen(facts, kept, who, &facts.group_id(second.as_str())) {
        return not_found(alloc, second.as_str());
    }
    demand_root(alloc, facts, kept, who)
}

/// A rule on what is made in a folder: the folder stands, the caller sees the holder, and is root.
pub fn rule_on_create<K: Kept>(
    alloc: Global,
    facts: &Facts,
    kept: &K,
    who: &Who,
    folder: &Text,
    holder: &Entity,
) -> Result<Option<Refusal>, AllocError>
    ensures { IfOk result (λ found. found
        ≡ first_of (no_folder folder.now facts.now
        ∷ no_entity (K.held kept.now) facts.now who.now holder.now
        ∷ denial (K.held kept.now) facts.now who.now Root ∷ [])) }
{
    if facts.folder_id(folder.as_str()).is_none() {
        return not_found(alloc, folder.as_str());
    }
    if is_missing(facts, kept, who, holder) {
        return not_found(alloc, named_text(holder));
    }
    demand_root(alloc, facts, kept, who)
}
