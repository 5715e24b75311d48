// What the query of administrators shows.
ghost use Rattle.std.specs.Prelude.{◌≡◌, [], ◌∷◌, ◌++◌, OnOk, OnErr};
ghost use Rattle.reg_terms.specs.declared.admin_shown.ConsumerShown.{ConsumerShown};
ghost use Rattle.reg_terms.specs.declared.admin_shown.GoneShown.{GoneShown};
ghost use Rattle.reg_terms.specs.declared.admin_shown.JobShown.{JobShown};
ghost use Rattle.reg_terms.specs.declared.admin_shown.RuleShown.{RuleShown};

use crate::Scope;
use reg_base::{Moment, Privilege, RuleId, Text};
use std::alloc::{AllocError, Global};
use std::marker::Model;

/// A reader of the change log, and the number of the last entry that it has acknowledged.
#[derive(Drop)]
pub struct ConsumerShown {
    pub consumer: Text,
    pub place: u64,
}

/// A list of consumers. Contracts see the list.
#[derive(Drop)]
pub struct ConsumersShown {
    items: Vec<ConsumerShown>,
}

impl Model for ConsumersShown {
    ghost use Rattle.std.specs.Prelude.{List};
    ghost use Rattle.reg_terms.specs.declared.admin_shown.ConsumerShown.{ConsumerShown};

    ghost Value = { List ConsumerShown };

    ghost view = { λ c. c.items.items };
}

impl ConsumersShown {
    /// The empty list.
    pub fn new(alloc: Global) -> ConsumersShown
        ensures { result ≡ [] }
    {
        ConsumersShown {
            items: Vec::new(alloc),
        }
    }

    /// Adds a consumer at the end. Where there is no memory the list stays as it was.
    pub fn push(&mut self, item: ConsumerShown) -> Result<(), AllocError>
        ensures ok { OnOk result (self.new ≡ self.old ++ item ∷ []) }
        ensures err { OnErr result (self.new ≡ self.old) }
    {
        self.items.push(item)?;
        Ok(())
    }

    /// The consumers.
    pub fn list(&self) -> &[ConsumerShown]
        ensures { result.now ≡ self.now }
    {
        &self.items
    }
}

/// A group that is gone, with the name that it had last.
#[derive(Drop)]
pub struct GoneShown {
    /// The moment at which it was deleted.
    pub ended: Moment,
    pub group: Text,
}

/// A list of groups that are gone. Contracts see the list.
#[derive(Drop)]
pub struct GonesShown {
    items: Vec<GoneShown>,
}

impl Model for GonesShown {
    ghost use Rattle.std.specs.Prelude.{List};
    ghost use Rattle.reg_terms.specs.declared.admin_shown.GoneShown.{GoneShown};

    ghost Value = { List GoneShown };

    ghost view = { λ g. g.items.items };
}

impl GonesShown {
    /// The empty list.
    pub fn new(alloc: Global) -> GonesShown
        ensures { result ≡ [] }
    {
        GonesShown {
            items: Vec::new(alloc),
        }
    }

    /// Adds a group at the end. Where there is no memory the list stays as it was.
    pub fn push(&mut self, item: GoneShown) -> Result<(), AllocError>
        ensures ok { OnOk result (self.new ≡ self.old ++ item ∷ []) }
        ensures err { OnErr result (self.new ≡ self.old) }
    {
        self.items.push(item)?;
        Ok(())
    }

    /// The groups that are gone.
    pub fn list(&self) -> &[GoneShown]
        ensures { result.now ≡ self.now }
    {
        &self.items
    }
}

/// A loader job.
#[derive(Drop)]
pub struct JobShown {
    pub job: Text,
    /// In percent.
    pub max_percent: u64,
    pub min_size: u64,
    /// The source of persons where a table names none.
    pub source: Text,
    /// The name of its group or of its folder, `:` for the root.
    pub target: Text,
}

/// A list of loader jobs. Contracts see the list.
#[derive(Drop)]
pub struct JobsShown {
    items: Vec<JobShown>,
}

impl Model for JobsShown {
    ghost use Rattle.std.specs.Prelude.{List};
    ghost use Rattle.reg_terms.specs.declared.admin_shown.JobShown.{JobShown};

    ghost Value = { List JobShown };

    ghost view = { λ j. j.items.items };
}

impl JobsShown {
    /// The empty list.
    pub fn new(alloc: Global) -> JobsShown
        ensures { result ≡ [] }
    {
        JobsShown {
            items: Vec::new(alloc),
        }
    }

    /// Adds a job at the end. Where there is no memory the list stays as it was.
    pub fn push(&mut self, item: JobShown) -> Result<(), AllocError>
        ensures ok { OnOk result (self.new ≡ self.old ++ item ∷ []) }
        ensures err { OnErr result (self.new ≡ self.old) }
    {
        self.items.push(item)?;
        Ok(())
    }

    /// The loader jobs.
    pub fn list(&self) -> &[JobShown]
        ensures { result.now ≡ self.now }
    {
        &self.items
    }
}

/// What a rule does, with names in place of ids.
#[derive(Drop)]
pub enum FormShown {
    RemoveLost {
        check: Text,
        owner: Text,
    },
    EndLost {
        check: Text,
        owner: Text,
        days: u32,
    },
    Veto {
        owner: Text,
        condition: Text,
    },
    OnCreate {
        folder: Text,
        scope: Scope,
        privilege: Privilege,
        holder: Text,
    },
}

/// A rule.
#[derive(Drop)]
pub struct RuleShown {
    pub id: RuleId,
    pub form: FormShown,
}

/// A list of rules. Contracts see the list.
#[derive(Drop)]
pub struct RulesShown {
    items: Vec<RuleShown>,
}

impl Model for RulesShown {
    ghost use Rattle.std.specs.Prelude.{List};
    ghost use Rattle.reg_terms.specs.declared.admin_shown.RuleShown.{RuleShown};

    ghost Value = { List RuleShown };

    ghost view = { λ r. r.items.items };
}

impl RulesShown {
    /// The empty list.
    pub fn new(alloc: Global) -> RulesShown
        ensures { result ≡ [] }
    {
        RulesShown {
            items: Vec::new(alloc),
        }
    }

    /// Adds a rule at the end. Where there is no memory the list stays as it was.
    pub fn push(&mut self, item: RuleShown) -> Result<(), AllocError>
        ensures ok { OnOk result (self.new ≡ self.old ++ item ∷ []) }
        ensures err { OnErr result (self.new ≡ self.old) }
    {
        self.items.push(item)?;
        Ok(())
    }

    /// The rules.
    pub fn list(&self) -> &[RuleShown]
        ensures { result.now ≡ self.now }
    {
        &self.items
    }
}
