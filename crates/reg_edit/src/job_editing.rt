// The events of the commands on loader jobs.
ghost use Rattle.std.specs.Prelude.{◌≡◌, ◌<◌, ◌∷◌, [], IfOk};
ghost use Rattle.reg_terms.specs.Limits.{max_jobs};
ghost use Rattle.reg_terms.specs.declared.event.Event.TheVariants.{JobMade};
ghost use Rattle.reg_facts.specs.Events.{new_job, on_job};
ghost use Rattle.reg_facts.specs.Jobs.{job_by};

use crate::editing::one;
use reg_base::{JobId, Text};
use reg_facts::{Event, Facts, JobRow, Object};
use std::alloc::{AllocError, Global};

/// A loader job of the next id is made.
pub(crate) fn job_add(
    facts: &Facts,
    alloc: Global,
    job: &Text,
    target: Object,
    source: &Text,
    min_size: u64,
    max_percent: u64,
) -> Result<Vec<Event>, AllocError>
    requires { facts.now.made.jobs < max_jobs }
    ensures { IfOk result (λ events. events.items
        ≡ JobMade (new_job job.now target source.now min_size max_percent facts.now) ∷ []) }
{
    let row = JobRow {
        id: JobId::new(facts.made().jobs + 1),
        name: job.copy(alloc)?,
        target,
        source: source.copy(alloc)?,
        min_size,
        max_percent,
    };
    one(alloc, Event::JobMade { row })
}

/// The loader job of a name goes.
pub(crate) fn job_delete(facts: &Facts, alloc: Global, job: &Text) -> Result<Vec<Event>, AllocError>
    ensures { IfOk result (λ events. events.items ≡ on_job (job_by job.now facts.now.jobs)) }
{
    match facts.job(job.as_str()) {
        Some(row) => one(alloc, Event::JobGone { job: row.id }),
        None => Ok(Vec::new(alloc)),
    }
}
