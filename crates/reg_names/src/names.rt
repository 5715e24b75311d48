// The index of names.
ghost use Rattle.std.specs.Prelude.{ℕ};
ghost use Rattle.reg_base.specs.declared.entity.Entity.{Entity};
ghost use Rattle.reg_facts.specs.Events.{edit};
ghost use Rattle.reg_facts.specs.Suiting.{CanEdit};
ghost use Rattle.reg_names.specs.Index.{IsInStep};

use reg_facts::{Command, Facts};

/// The index of names. The facts keep the one index that there is, in step with their lists at each
/// event, so this holds nothing of its own, and is in step with every facts.
#[derive(Clone, Copy)]
pub struct Names;

impl Names {
    /// The index of all objects of the facts. It takes no memory.
    pub fn of(facts: &Facts) -> Names
        ensures { IsInStep result facts.now }
    {
        facts.law_names();
        Names
    }

    /// The index of the facts after a command, called with the facts before it. It takes no memory.
    pub fn edit(self, before: &Facts, command: &Command) -> Names
        ensures { (at : ℕ) (by : Entity) → CanEdit at by command.now before.now
            → IsInStep result (edit at by command.now before.now) }
    {
        before.law_edit();
        let _ = command;
        self
    }
}
