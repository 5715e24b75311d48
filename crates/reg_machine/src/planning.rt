// What a request to load a table comes to.
ghost use Rattle.std.specs.Prelude.{◌≡◌, ℕ, List, [], None, Ok, Some, true, IfOk};
ghost use Rattle.reg_base.specs.Names.{is_extension};
ghost use Rattle.reg_ops.specs.Forms.{has_form};
ghost use Rattle.reg_terms.specs.declared.command.Command.TheVariants.{Load};
ghost use Rattle.reg_terms.specs.declared.refusal.Refusal.TheVariants.{IsComposite};
ghost use Rattle.reg_terms.specs.declared.rows.JobRow.{JobRow};
ghost use Rattle.reg_facts.specs.Jobs.{job_by};
ghost use Rattle.reg_demand.specs.Refusing.{refused};
ghost use Rattle.reg_load.specs.Loading.{AreNames};
ghost use Rattle.reg_loader.specs.Plan.{GroupStands, counts_of, is_composite_target};
ghost use Rattle.reg_machine.specs.History.{now_facts};
ghost use Rattle.reg_current.specs.Live.{live};
ghost use Rattle.reg_machine.specs.Loads.{AreGroupsNamed, IsReady, command_of, is_list};
ghost use Rattle.reg_machine.specs.Loads.{job_outcome, load_outcome, planned_outcome};
ghost use Rattle.reg_machine.specs.Loads.{table_outcome, too_many};
ghost use Rattle.reg_machine.specs.Past.{present_name};
ghost use Rattle.reg_machine.specs.Refusals.{refusal};

use crate::Machine;
use crate::past::present_name;
use reg_base::{Entity, Name, Text};
use reg_demand::refused;
use reg_effect::Kept;
use reg_facts::{Command, Facts, JobRow, Object, Refusal};
use reg_loader::{Plan, PlanFault, Table, TableFault, plan, read_table};
use reg_terms::{LoadCounts, LoadRow, LoadRows, MAX_HISTORY, MAX_RECORDS, Names};
use std::alloc::{AllocError, Global};

/// Whether a job is of many groups: those in a folder.
fn is_list(target: &Object) -> bool
    ensures { result ≡ is_list target.now }
{
    match target {
        Object::Folder(_) => true,
        Object::Group(_) | Object::Def(_) | Object::Attr(_) | Object::Subject(_) => false,
    }
}

/// Whether the one group of a job is a composite.
fn is_composite_target(facts: &Facts, target: &Object) -> bool
    ensures { result ≡ is_composite_target target.now facts.now }
{
    match target {
        Object::Group(group) => facts.is_composite(*group),
        Object::Folder(_) | Object::Def(_) | Object::Attr(_) | Object::Subject(_) => false,
    }
}

/// A law, which does nothing: names are names.
fn law_names(names: &[Name])
    ensures { AreNames names.now }
{
    for name in names {
        let _ = name.bytes();
    }
}

/// A law, which does nothing: groups have names.
fn law_groups(rows: &[LoadRow])
    ensures { AreGroupsNamed rows.now }
{
    for row in rows {
        let _ = row.group.bytes();
    }
}

/// A law, which does nothing: the names that a plan tells are names.
fn law_plan(plan: &Plan)
    ensures created { AreNames plan.now.created }
    ensures removed { AreGroupsNamed plan.now.removed }
    ensures added { AreGroupsNamed plan.now.added }
{
    law_names(plan.created.list());
    law_groups(plan.removed.list());
    law_groups(plan.added.list());
}

/// The target of a job that stands stands.
fn law_target(facts: &Facts)
    ensures { (name : List ℕ) (job : JobRow) → job_by name facts.now.jobs ≡ Some job
        → GroupStands job.target facts.now }
{
    facts.law_jobs();
}

/// The command of a plan, and what it does in numbers.
fn command_of(alloc: Global, job: &Text, plan: Plan) -> Result<(Command, LoadCounts), AllocError>
    ensures command { IfOk result (λ made. made.0 ≡ command_of job.now plan) }
    ensures counts { IfOk result (λ made. made.1 ≡ counts_of plan) }
{
    let counts = plan.counts();
    let Plan {
        created,
        removed,
        added,
        ..
    } = plan;
    let job = job.copy(alloc)?;
    let command = Command::Load {
        job,
        created,
        removed,
        added,
    };
    Ok((command, counts))
}

/// A load of a job that brings nothing.
fn empty_load(alloc: Global, job: &Text) -> Result<Command, AllocError>
    ensures { IfOk result (λ command. command ≡ Load job.now [] [] []) }
{
    let job = job.copy(alloc)?;
    Ok(Command::Load {
        job,
        created: Names::new(alloc),
        removed: LoadRows::new(alloc),
        added: LoadRows::new(alloc),
    })
}

impl<K: Kept> Machine<K> {
    /// The refusal of a table with too many records.
    fn too_many(&self, alloc: Global) -> Result<Refusal, AllocError>
        ensures { IfOk result (λ reason. reason ≡ too_many self.now.history) }
    {
        if self.commands() >= MAX_HISTORY {
            let kind = Text::new(alloc, "history")?;
            return Ok(Refusal::Full {
                kind,
                limit: MAX_HISTORY as u64,
            });
        }
        let kind = Text::new(alloc, "record")?;
        Ok(Refusal::Full {
            kind,
            limit: MAX_RECORDS,
        })
    }

    /// What refuses a caller's request to load by the job of this name, before its table is read.
    fn load_barred(
        &self,
        alloc: Global,
        by: &Entity,
        job: &Text,
    ) -> Result<Option<Refusal>, AllocError>
        ensures { IfOk result (λ found. found
            ≡ refused (live self.now.clock (now_facts self.now)) (now_facts self.now) by.now
            (Load job.now [] [] [])) }
    {
        let command = empty_load(alloc, job)?;
        let barred = refused(alloc, self.facts(), self.kept(), by, &command);
        drop(command);
        barred
    }

    /// A law, which does nothing: the fields of a plan's command that nothing refuses have their
    /// form.
    fn law_planned(&self, by: &Entity, job: &Text, plan: &Plan)
        requires { is_extension job.now ≡ true }
        ensures { refusal self.now.history self.now.clock by.now (command_of job.now plan.now)
            ≡ None → has_form (command_of job.now plan.now) ≡ true }
    {
        let _ = by;
        let _ = job;
        law_plan(plan);
        self.law_formed();
    }

    /// The command of a plan and what it does in numbers, unless something refuses it.
    fn plan_command(
        &self,
        alloc: Global,
        by: &Entity,
        job: &Text,
        plan: Plan,
    ) -> Result<Result<(Command, LoadCounts), Refusal>, AllocError>
        requires { is_extension job.now ≡ true }
        ensures outcome { IfOk result (λ outcome. outcome
            ≡ planned_outcome self.now.history self.now.clock by.now job.now plan) }
        ensures ready { IfOk result
            (λ outcome. IsReady self.now.history self.now.clock by.now outcome) }
    {
        self.law_planned(by, job, &plan);
        let (command, counts) = command_of(alloc, job, plan)?;
        match self.decide(alloc, by, &command) {
            Ok(None) => Ok(Ok((command, counts))),
            Ok(Some(refusal)) => {
                drop(command);
                Ok(Err(refusal))
            }
            Err(error) => {
                drop(command);
                Err(error)
            }
        }
    }

    /// The refusal of a job whose one group is a composite.
    fn composite_target(&self, alloc: Global, job: &JobRow) -> Result<Refusal, AllocError>
        ensures { IfOk result (λ reason. reason
            ≡ IsComposite (present_name job.now.target (now_facts self.now))) }
    {
        let object = present_name(alloc, self.facts(), &job.target)?;
        Ok(Refusal::IsComposite { object })
    }

    /// What comes of the rows of a table for a job that stands.
    fn plan_rows(
        &self,
        alloc: Global,
        by: &Entity,
        job: &Text,
        row: &JobRow,
        table: &Table,
    ) -> Result<Result<(Command, LoadCounts), Refusal>, AllocError>
        requires form { is_extension job.now ≡ true }
        requires stands { GroupStands row.now.target (now_facts self.now) }
        ensures outcome { IfOk result (λ outcome. outcome
            ≡ table_outcome self.now.history self.now.clock by.now job.now row.now (Ok table.now)) }
        ensures ready { IfOk result
            (λ outcome. IsReady self.now.history self.now.clock by.now outcome) }
    {
        match plan(alloc, self.facts(), self.kept(), row, table) {
            Ok(plan) => self.plan_command(alloc, by, job, plan),
            Err(PlanFault::IsComposite) => {
                let refusal = self.composite_target(alloc, row)?;
                Ok(Err(refusal))
            }
            Err(PlanFault::Failsafe { before, removes }) => {
                Ok(Err(Refusal::Failsafe { before, removes }))
            }
            Err(PlanFault::NoMemory) => Err(AllocError),
        }
    }

    /// What comes of the bytes of a table for a job that stands.
    fn plan_table(
        &self,
        alloc: Global,
        by: &Entity,
        job: &Text,
        row: &JobRow,
        table: &[u8],
    ) -> Result<Result<(Command, LoadCounts), Refusal>, AllocError>
        requires form { is_extension job.now ≡ true }
        requires stands { GroupStands row.now.target (now_facts self.now) }
        ensures outcome { IfOk result (λ outcome. outcome
            ≡ job_outcome self.now.history self.now.clock by.now job.now table.now (Some row.now)) }
        ensures ready { IfOk result
            (λ outcome. IsReady self.now.history self.now.clock by.now outcome) }
    {
        if is_composite_target(self.facts(), &row.target) {
            let refusal = self.composite_target(alloc, row)?;
            return Ok(Err(refusal));
        }
        match read_table(alloc, table, is_list(&row.target)) {
            Ok(table) => self.plan_rows(alloc, by, job, row, &table),
            Err(TableFault::Bad { row }) => Ok(Err(Refusal::BadTable { row })),
            Err(TableFault::TooMany) => {
                let refusal = self.too_many(alloc)?;
                Ok(Err(refusal))
            }
            Err(TableFault::NoMemory) => Err(AllocError),
        }
    }

    /// What comes of a caller's request to load the bytes of a table by the job of this name, at
    /// the clock: the command of the table's plan, which nothing refuses, and what it does in
    /// numbers; or the first refusal. What refuses each load of the job comes first; then
    /// IsComposite, where the job's one group is a composite; BadTable; Full, where the table has
    /// too many records, of the history if that is full and else of `record`; Failsafe; and then
    /// what refuses the command. It changes nothing. The only error is out of memory. It costs what
    /// reading the table costs, a look into names and persons for each record, and a walk over the
    /// groups.
    #[tactic(auto, unfolding(crate::specs::Loads::load_outcome))]
    pub fn plan_load(
        &self,
        alloc: Global,
        by: &Entity,
        job: &Text,
        table: &[u8],
    ) -> Result<Result<(Command, LoadCounts), Refusal>, AllocError>
        requires { is_extension job.now ≡ true }
        ensures outcome { IfOk result (λ outcome. outcome
            ≡ load_outcome self.now.history self.now.clock by.now job.now table.now) }
        ensures ready { IfOk result
            (λ outcome. IsReady self.now.history self.now.clock by.now outcome) }
    {
        if let Some(refusal) = self.load_barred(alloc, by, job)? {
            return Ok(Err(refusal));
        }
        law_target(self.facts());
        match self.facts().job(job.as_str()) {
            Some(row) => self.plan_table(alloc, by, job, row, table),
            None => {
                let object = job.copy(alloc)?;
                Ok(Err(Refusal::NotFound { object }))
            }
        }
    }
}
