// Loader jobs taken into the facts.
ghost use Rattle.std.specs.Prelude.{◌≡◌, IfOk, OnOk};
ghost use Rattle.reg_terms.specs.declared.event.Event.TheVariants.{JobMade, JobGone};
ghost use Rattle.reg_facts.specs.Ascending.{JobsAscend};
ghost use Rattle.reg_facts.specs.Events.{happened};
ghost use Rattle.reg_facts.specs.Suiting.{Suits};

use crate::facts::finished;
use crate::numbered::remove_by_id;
use crate::tables::Tables;
use crate::{Facts, JobRow};
use reg_base::JobId;
use std::alloc::AllocError;

impl Tables {
    /// Adds a loader job of the next id.
    pub fn push_job(&mut self, row: JobRow) -> Result<(), AllocError>
        ensures { OnOk result (self.new ≡ happened (JobMade row) self.old) }
    {
        let number = row.id.number();
        self.job_rows.push(row)?;
        self.counts.jobs = number;
        Ok(())
    }

    /// Takes a loader job away.
    pub fn remove_job(&mut self, id: JobId)
        requires { JobsAscend self.old.jobs }
        ensures { self.new ≡ happened (JobGone id) self.old }
    {
        remove_by_id(&mut self.job_rows, id.number());
    }
}

impl Facts {
    pub(crate) fn job_made(self, row: JobRow) -> Result<Facts, AllocError>
        requires { Suits (JobMade row) self }
        ensures { IfOk result (λ f. f ≡ happened (JobMade row) self) }
    {
        let Facts {
            mut tables,
            subject_index,
            children,
        } = self;
        let done = tables.push_job(row);
        finished(done, tables, subject_index, children)
    }

    pub(crate) fn job_gone(self, id: JobId) -> Facts
        requires { Suits (JobGone id) self }
        ensures { result ≡ happened (JobGone id) self }
    {
        let mut facts = self;
        facts.tables.remove_job(id);
        facts
    }
}
