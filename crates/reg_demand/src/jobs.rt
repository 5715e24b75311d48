// What comes before all else that may refuse a command about loader jobs.
ghost use Rattle.std.specs.Prelude.{◌≡◌, ◌∷◌, [], IfOk};
ghost use Rattle.reg_demand.specs.Demands.{Root};
ghost use Rattle.reg_demand.specs.Refusing.{first_of, denial, no_folder, no_group, no_job};

use crate::finding::is_unseen;
use crate::refusals::not_found;
use crate::subjects::demand_root;
use reg_base::{Name, Text};
use reg_effect::Kept;
use reg_facts::{Facts, Refusal};
use reg_priv::{Who, is_root};
use std::alloc::{AllocError, Global};

/// A job of one group: the caller sees the group, and is root.
pub fn job_simple<K: Kept>(
    alloc: Global,
    facts: &Facts,
    kept: &K,
    who: &Who,
    group: &Name,
) -> Result<Option<Refusal>, AllocError>
    ensures { IfOk result (λ found. found
        ≡ first_of (no_group (K.held kept.now) facts.now who.now group.now
        ∷ denial (K.held kept.now) facts.now who.now Root ∷ [])) }
{
    if is_unseen(facts, kept, who, &facts.group_id(group.as_str())) {
        return not_found(alloc, group.as_str());
    }
    demand_root(alloc, facts, kept, who)
}

/// A job of the groups in a folder: the folder stands, and the caller is root.
pub fn job_list<K: Kept>(
    alloc: Global,
    facts: &Facts,
    kept: &K,
    who: &Who,
    folder: &Text,
) -> Result<Option<Refusal>, AllocError>
    ensures { IfOk result (λ found. found
        ≡ first_of (no_folder folder.now facts.now ∷ denial (K.held kept.now) facts.now who.now Root
        ∷ [])) }
{
    if facts.folder_id(folder.as_str()).is_none() {
        return not_found(alloc, folder.as_str());
    }
    demand_root(alloc, facts, kept, who)
}

/// A command about a job that is named: the caller is root, who alone sees jobs, and the job
/// stands.
pub fn of_job<K: Kept>(
    alloc: Global,
    facts: &Facts,
    kept: &K,
    who: &Who,
    job: &Text,
) -> Result<Option<Refusal>, AllocError>
    ensures { IfOk result (λ found. found
        ≡ first_of (no_job (K.held kept.now) facts.now who.now job.now
        ∷ denial (K.held kept.now) facts.now who.now Root ∷ [])) }
{
    if !is_root(facts, kept, who) {
        return not_found(alloc, job.as_str());
    }
    if facts.job(job.as_str()).is_none() {
        return not_found(alloc, job.as_str());
    }
    Ok(None)
}
