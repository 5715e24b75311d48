// What comes before all else that may refuse a command about subjects.
ghost use Rattle.std.specs.Prelude.{◌≡◌, ◌∷◌, [], IfOk};
ghost use Rattle.reg_demand.specs.Demands.{Root};
ghost use Rattle.reg_demand.specs.Refusing.{first_of, denial};

use crate::refusals::not_root;
use reg_effect::Kept;
use reg_facts::{Facts, Refusal};
use reg_priv::{Who, is_root};
use std::alloc::{AllocError, Global};

/// The caller is root.
pub fn demand_root<K: Kept>(
    alloc: Global,
    facts: &Facts,
    kept: &K,
    who: &Who,
) -> Result<Option<Refusal>, AllocError>
    ensures { IfOk result (λ found. found
        ≡ first_of (denial (K.held kept.now) facts.now who.now Root ∷ [])) }
{
    if !is_root(facts, kept, who) {
        return not_root(alloc);
    }
    Ok(None)
}
