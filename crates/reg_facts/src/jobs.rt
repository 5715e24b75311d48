// Loader jobs: looked up by their names and by their targets.
ghost use Rattle.std.specs.Prelude.{◌≡◌, ℕ, List};
ghost use Rattle.std.specs.List.{position};
ghost use Rattle.std.specs.Option.{option_copied};
ghost use Rattle.std.specs.Str.{bytes_eq};
ghost use Rattle.reg_base.specs.declared.entity.Entity.{Entity};
ghost use Rattle.reg_terms.specs.declared.command.Command.TheVariants.{JobDelete};
ghost use Rattle.reg_terms.specs.declared.rows.JobRow.{JobRow};
ghost use Rattle.reg_facts.specs.Events.{events_of};
ghost use Rattle.reg_facts.specs.Jobs.{AreJobs, is_target, job_by};
ghost use Rattle.reg_facts.specs.Suiting.{AllSuit};

use crate::{Facts, JobRow, Object};

/// The place of the job of a name among some.
fn job_place(rows: &[JobRow], name: &str) -> Option<usize>
    ensures { result ≡ position (λ (row : JobRow). bytes_eq row.name name.now) rows.now }
{
    rows.iter().position(|row| row.name.as_str() == name)
}

/// The job of a name among some.
fn job_in<'a>(rows: &'a [JobRow], name: &str) -> Option<&'a JobRow>
    ensures { option_copied result ≡ job_by name.now rows.now }
{
    let place = job_place(rows, name)?;
    rows.get(place)
}

impl Facts {
    /// The loader job of this name. None exactly where there is none. It looks at each job, and
    /// takes no memory.
    pub fn job(&self, name: &str) -> Option<&JobRow>
        ensures { option_copied result ≡ job_by name.now self.now.jobs }
    {
        job_in(&self.tables.job_rows, name)
    }

    /// Whether an object is the target of a loader job. It looks at each job, and takes no memory.
    pub fn is_target(&self, object: &Object) -> bool
        ensures { result ≡ is_target object.now self.now.jobs }
    {
        self.tables.job_rows.iter().any(|row| row.target.is(object))
    }

    /// A law, which does nothing: the ids of loader jobs ascend, no two share a name, and their
    /// targets stand.
    pub fn law_jobs(&self)
        ensures { AreJobs self.now }
    {
        let _ = &self.tables;
    }

    /// A law, which does nothing: what deleting a loader job brings suits the facts.
    pub fn law_job_delete(&self)
        ensures { (at : ℕ) (by : Entity) (job : List ℕ)
            → AllSuit (events_of at by (JobDelete job) self.now) self.now }
    {
        let _ = &self.tables;
    }
}
