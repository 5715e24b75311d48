// What refuses a load of a loader job.
ghost use Rattle.std.specs.Prelude.{◌≡◌, None, Some, IfOk};
ghost use Rattle.reg_load.specs.LoadChecks.{added_rows, first_fault, load_checks};
ghost use Rattle.reg_machine.specs.Checks.{all_load_checks, load_of_checks, load_refusal};
ghost use Rattle.reg_machine.specs.Checks.{load_room_checks, row_veto, rows_veto};
ghost use Rattle.reg_machine.specs.History.{now_facts};
ghost use Rattle.reg_current.specs.Live.{live};
ghost use Rattle.reg_machine.specs.Refusals.{first_of};

use crate::Machine;
use crate::past::present_name;
use crate::refusing::{full, not_found, wrong_kind};
use reg_base::{Entity, GroupId, Name, RuleId, Text};
use reg_effect::Kept;
use reg_facts::{JobRow, Refusal};
use reg_load::{LoadFault, added_rows, check_load, check_room};
use reg_rules::veto;
use reg_terms::{
    LoadRow, LoadRows, MAX_GRANTS, MAX_GROUPS, MAX_RECORDS, MAX_ROWS, Names, PersonRow,
};
use std::alloc::{AllocError, Global};

impl<K: Kept> Machine<K> {
    /// The first rule that forbids a person in a group. There is none on a group that is yet to be
    /// made.
    fn row_veto(&self, row: &PersonRow) -> Option<RuleId>
        ensures { result ≡ row_veto (live self.now.clock (now_facts self.now))
            (now_facts self.now) row.now }
    {
        if row.group > u64::from(self.facts().made().groups) {
            return None;
        }
        let group = GroupId::new(row.group as u32);
        veto(self.facts(), self.kept(), group, row.person)
    }

    /// The rule that forbids the first of some rows that a rule forbids.
    fn rows_veto(&self, rows: &[PersonRow]) -> Option<RuleId>
        ensures { result ≡ rows_veto (live self.now.clock (now_facts self.now))
            (now_facts self.now) rows.now }
    {
        for row in rows {
            if let Some(rule) = self.row_veto(row) {
                return Some(rule);
            }
        }
        None
    }

    /// The rule that forbids the first row that a load adds which a rule forbids.
    fn load_veto(
        &self,
        alloc: Global,
        job: &JobRow,
        created: &[Name],
        removed: &[LoadRow],
        added: &[LoadRow],
    ) -> Result<Option<RuleId>, AllocError>
        requires { first_fault (load_checks job.now created.now removed.now added.now
            (now_facts self.now)) ≡ None }
        ensures { IfOk result (λ rule. rule
            ≡ rows_veto (live self.now.clock (now_facts self.now)) (now_facts self.now)
            (added_rows job.now created.now (now_facts self.now) added.now)) }
    {
        let rows = added_rows(self.facts(), alloc, job, created, removed, added)?;
        Ok(self.rows_veto(&rows))
    }

    /// The refusal for a fault of a load of a job.
    fn load_refusal(
        &self,
        alloc: Global,
        job: &JobRow,
        fault: LoadFault,
    ) -> Result<Option<Refusal>, AllocError>
        ensures { IfOk result (λ found. found
            ≡ Some (load_refusal job.now (now_facts self.now) fault)) }
    {
        match fault {
            LoadFault::NotFound { object } => Ok(Some(Refusal::NotFound { object })),
            LoadFault::WrongKind => wrong_kind(alloc, "created"),
            LoadFault::Taken { object } => Ok(Some(Refusal::Taken { object })),
            LoadFault::Already => Ok(Some(Refusal::Already)),
            LoadFault::NoSuch => Ok(Some(Refusal::NoSuch)),
            LoadFault::IsComposite => {
                let object = present_name(alloc, self.facts(), &job.target)?;
                Ok(Some(Refusal::IsComposite { object }))
            }
            LoadFault::FullGroup => full(alloc, "group", u64::from(MAX_GROUPS)),
            LoadFault::FullRow => full(alloc, "row", MAX_ROWS as u64),
            LoadFault::FullGrant => full(alloc, "grant", MAX_GRANTS as u64),
            LoadFault::FullRecord => full(alloc, "record", MAX_RECORDS),
        }
    }

    /// Full, where a load of a job wants room, or the history has none for a command more.
    fn decide_load_room(
        &self,
        alloc: Global,
        job: &JobRow,
        room: Option<LoadFault>,
    ) -> Result<Option<Refusal>, AllocError>
        ensures { IfOk result (λ found. found
            ≡ first_of (load_room_checks self.now.history job.now (now_facts self.now) room)) }
    {
        match room {
            None => self.decide_room(alloc),
            Some(LoadFault::FullRecord) => match self.decide_room(alloc)? {
                Some(refusal) => Ok(Some(refusal)),
                None => full(alloc, "record", MAX_RECORDS),
            },
            Some(fault) => self.load_refusal(alloc, job, fault),
        }
    }

    /// What refuses a load of a job that stands.
    fn decide_load_of(
        &self,
        alloc: Global,
        by: &Entity,
        job: &JobRow,
        created: &[Name],
        removed: &[LoadRow],
        added: &[LoadRow],
    ) -> Result<Option<Refusal>, AllocError>
        ensures { IfOk result (λ found. found
            ≡ first_of (load_of_checks self.now.history self.now.clock
            (now_facts self.now) by.now job.now created.now removed.now added.now)) }
    {
        if let Some(fault) = check_load(self.facts(), alloc, job, created, removed, added)? {
            return self.load_refusal(alloc, job, fault);
        }
        if let Some(rule) = self.load_veto(alloc, job, created, removed, added)? {
            let rule = u64::from(rule.number());
            return Ok(Some(Refusal::Vetoed { rule }));
        }
        let room = check_room(self.facts(), alloc, by, job, created, removed, added)?;
        self.decide_load_room(alloc, job, room)
    }

    pub(crate) fn decide_load(
        &self,
        alloc: Global,
        by: &Entity,
        job: &Text,
        created: &Names,
        removed: &LoadRows,
        added: &LoadRows,
    ) -> Result<Option<Refusal>, AllocError>
        ensures { IfOk result (λ found. found
            ≡ first_of (all_load_checks self.now.history self.now.clock
            (now_facts self.now) by.now job.now created.now removed.now added.now)) }
    {
        match self.facts().job(job.as_str()) {
            Some(row) => {
                self.decide_load_of(alloc, by, row, created.list(), removed.list(), added.list())
            }
            None => not_found(alloc, job.as_str()),
        }
    }
}
