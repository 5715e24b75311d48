// What an accepted load makes happen, and what it lists.
ghost use Rattle.std.specs.Prelude.{◌≡◌, ℕ, List, None, IfOk};
ghost use Rattle.reg_base.specs.declared.entity.Entity.{Entity};
ghost use Rattle.reg_terms.specs.declared.command.Command.TheVariants.{Load};
ghost use Rattle.reg_terms.specs.declared.lists.LoadRow.{LoadRow};
ghost use Rattle.reg_facts.specs.Events.{load_events};
ghost use Rattle.reg_machine.specs.History.{now_facts};
ghost use Rattle.reg_machine.specs.Loads.{ListsFew};
ghost use Rattle.reg_machine.specs.Refusals.{refusal};

use crate::Machine;
use reg_base::{Entity, Text};
use reg_effect::Kept;
use reg_facts::Event;
use reg_load::load_events;
use reg_terms::{LoadRows, Names};
use std::alloc::{AllocError, Global};

impl<K: Kept> Machine<K> {
    /// A law, which does nothing: a load that isn't refused lists no more names than groups may be
    /// made, no more rows that go than may stand, and no more that come than a table may bring.
    pub fn law_loads_few(&self)
        ensures { (by : Entity) (job : List ℕ) (created : List (List ℕ))
            (removed added : List LoadRow)
            → refusal self.now.history self.now.clock by (Load job created removed added) ≡ None
            → ListsFew created removed added }
    {
        self.law_formed();
    }

    /// The events of a load that isn't refused, at the clock.
    pub(crate) fn events_of_load(
        &self,
        alloc: Global,
        by: &Entity,
        job: &Text,
        created: &Names,
        removed: &LoadRows,
        added: &LoadRows,
    ) -> Result<Vec<Event>, AllocError>
        requires { refusal self.now.history self.now.clock by.now
            (Load job.now created.now removed.now added.now) ≡ None }
        ensures { IfOk result (λ events. events.items
            ≡ load_events self.now.clock by.now created.now removed.now added.now
            (now_facts self.now)) }
    {
        match self.facts().job(job.as_str()) {
            Some(row) => load_events(
                self.facts(),
                alloc,
                self.clock(),
                by,
                row,
                created.list(),
                removed.list(),
                added.list(),
            ),
            None => unreachable!(),
        }
    }
}
