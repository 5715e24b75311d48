// What refuses a command about loader jobs.
ghost use Rattle.std.specs.Prelude.{◌≡◌, IfOk};
ghost use Rattle.reg_machine.specs.Checks.{job_delete_checks, job_list_checks, job_simple_checks};
ghost use Rattle.reg_machine.specs.Checks.{new_job_checks};
ghost use Rattle.reg_machine.specs.History.{now_facts};
ghost use Rattle.reg_machine.specs.Refusals.{first_of};

use crate::Machine;
use crate::refusing::{full, not_found, taken};
use reg_base::{Name, Text};
use reg_effect::Kept;
use reg_facts::Refusal;
use reg_terms::MAX_JOBS;
use std::alloc::{AllocError, Global};

impl<K: Kept> Machine<K> {
    /// What refuses a job more of this name, where its target stands.
    fn decide_new_job(&self, alloc: Global, job: &Text) -> Result<Option<Refusal>, AllocError>
        ensures { IfOk result (λ found. found
            ≡ first_of (new_job_checks self.now.history (now_facts self.now) job.now)) }
    {
        if self.facts().job(job.as_str()).is_some() {
            return taken(alloc, job.as_str());
        }
        if self.facts().made().jobs >= MAX_JOBS {
            return full(alloc, "job", u64::from(MAX_JOBS));
        }
        self.decide_room(alloc)
    }

    pub(crate) fn decide_job_simple(
        &self,
        alloc: Global,
        job: &Text,
        group: &Name,
    ) -> Result<Option<Refusal>, AllocError>
        ensures { IfOk result (λ found. found
            ≡ first_of (job_simple_checks self.now.history
            (now_facts self.now) job.now group.now)) }
    {
        if self.facts().group_id(group.as_str()).is_none() {
            return not_found(alloc, group.as_str());
        }
        self.decide_new_job(alloc, job)
    }

    pub(crate) fn decide_job_list(
        &self,
        alloc: Global,
        job: &Text,
        folder: &Text,
    ) -> Result<Option<Refusal>, AllocError>
        ensures { IfOk result (λ found. found
            ≡ first_of (job_list_checks self.now.history (now_facts self.now) job.now folder.now)) }
    {
        if self.facts().folder_id(folder.as_str()).is_none() {
            return not_found(alloc, folder.as_str());
        }
        self.decide_new_job(alloc, job)
    }

    pub(crate) fn decide_job_delete(
        &self,
        alloc: Global,
        job: &Text,
    ) -> Result<Option<Refusal>, AllocError>
        ensures { IfOk result (λ found. found
            ≡ first_of (job_delete_checks self.now.history (now_facts self.now) job.now)) }
    {
        if self.facts().job(job.as_str()).is_none() {
            return not_found(alloc, job.as_str());
        }
        self.decide_room(alloc)
    }
}
