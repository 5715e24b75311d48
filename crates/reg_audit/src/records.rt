// The log, the lives, the names, the definitions and the places.
ghost use Rattle.std.specs.Prelude.{◌≡◌, ◌++◌, ℕ, List, [], map, IfOk, OnOk, None};
ghost use Rattle.reg_terms.specs.declared.kinds.Object.{Object};
ghost use Rattle.reg_log.specs.Places.{place_of};
ghost use Rattle.reg_audit.specs.Consumers.{places_after};
ghost use Rattle.reg_audit.specs.Definitions.{last_definition};
ghost use Rattle.reg_audit.specs.Kept.{defined_in, life_in, name_in, named_in};
ghost use Rattle.reg_audit.specs.Lines.{turn_line};
ghost use Rattle.reg_audit.specs.Lives.{first_life, begun, ended, groups_of, last_name, last_named};

use crate::Notes;
use crate::consumers::note_consumers;
use crate::definitions::Definitions;
use crate::departed::Departed;
use crate::lives::Lives;
use crate::noting::{log_lines, log_turns};
use reg_base::{GroupId, SubjectId};
use reg_log::{ChangeLog, Places};
use std::alloc::{AllocError, Global};

/// What is kept beside the past of memberships.
#[derive(Drop)]
pub(crate) struct Records {
    pub(crate) log: ChangeLog,
    pub(crate) lives: Lives,
    pub(crate) departed: Departed,
    pub(crate) definitions: Definitions,
    pub(crate) places: Places,
}

impl Records {
    /// Nothing happened yet. Takes no memory.
    pub(crate) fn start(alloc: Global) -> Records
        ensures log { result.log ≡ [] }
        ensures lives { (o : Object) → life_in result.lives o ≡ first_life o }
        ensures names { (o : Object) → name_in result.departed o ≡ None }
        ensures named { (name : List ℕ) → named_in result.departed name ≡ None }
        ensures groups { result.departed.groups.items ≡ [] }
        ensures defined { (a : ℕ) → defined_in result.definitions a ≡ None }
        ensures places { (name : List ℕ) → place_of result.places name ≡ None }
    {
        Records {
            log: ChangeLog::new(alloc),
            lives: Lives::start(alloc),
            departed: Departed::new(alloc),
            definitions: Definitions::new(alloc),
            places: Places::new(alloc),
        }
    }

    /// Adds what a step changes and the memberships that it turns. Out of memory it is to be given
    /// up.
    pub(crate) fn note(
        &mut self,
        alloc: Global,
        notes: &Notes,
        turned: &[(GroupId, SubjectId, bool)],
    ) -> Result<(), AllocError>
        ensures log { OnOk result (self.new.log
            ≡ self.old.log ++ (notes.now.lines ++ map (turn_line notes.now.at) turned.now)) }
        ensures lives { OnOk result ((o : Object)
            → life_in self.new.lives o
            ≡ ended notes.now.at (map (λ g. g.object) notes.now.gone) o
            (begun notes.now.at notes.now.made o (life_in self.old.lives o))) }
        ensures names { OnOk result ((o : Object)
            → name_in self.new.departed o
            ≡ last_name o (name_in self.old.departed o) notes.now.gone) }
        ensures named { OnOk result ((name : List ℕ)
            → named_in self.new.departed name
            ≡ last_named name (named_in self.old.departed name) notes.now.gone) }
        ensures groups { OnOk result (self.new.departed.groups.items
            ≡ self.old.departed.groups.items ++ groups_of notes.now.gone) }
        ensures defined { OnOk result ((a : ℕ)
            → defined_in self.new.definitions a
            ≡ last_definition a (defined_in self.old.definitions a) notes.now.attributes) }
        ensures places { OnOk result ((name : List ℕ)
            → place_of self.new.places name
            ≡ places_after name (place_of self.old.places name) notes.now.consumers) }
    {
        log_lines(&mut self.log, &notes.lines)?;
        log_turns(&mut self.log, notes.at, turned)?;
        self.lives.begin_all(&notes.made, notes.at)?;
        self.lives.end_all(&notes.gone, notes.at)?;
        self.departed.add_all(alloc, &notes.gone)?;
        self.definitions.add_all(&notes.attributes)?;
        note_consumers(&mut self.places, &notes.consumers)?;
        Ok(())
    }
}
