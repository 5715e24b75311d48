// What was assigned to each owner.
ghost use Rattle.std.specs.Prelude.{◌≡◌, ◌==◌, ◌||◌, ℕ, [], filter, nat_le, IfOk, OnOk};
ghost use Rattle.std.specs.Prelude.{map, if◌then◌else◌};
ghost use Rattle.reg_terms.specs.Kinds.{same_object};
ghost use Rattle.reg_terms.specs.declared.rows.AssignRow.{AssignRow};
ghost use Rattle.reg_pit.specs.Assigns.{IsNew, last_of, AreAssignedBy, Noted, assigned_at};
ghost use Rattle.reg_pit.specs.Changes.{among, assign_changes, changes_on};
ghost use Rattle.reg_pit.specs.Lives.{on_owner, values_at, row_of};
ghost use Rattle.reg_pit.specs.Members.{Lists};
ghost use Rattle.reg_pit.specs.Owned.{with_values};
ghost use Rattle.reg_pit.specs.declared.assign_change.AssignChange.TheVariants as change;

use crate::AssignChange;
use crate::assign_lives::{AssignLife, AssignLives};
use crate::assigned_past::{AssignedPast, PastAssign};
use crate::moments::{add, add_ends, listed};
use crate::value_lives::ValueLives;
use reg_base::{AssignId, AttrId, Moment};
use reg_terms::{AssignRow, AttrValue, Object};
use std::alloc::{AllocError, Global};
use std::collections::BTreeSet;
use std::marker::Model;

/// What was assigned to each owner. Contracts see the lives of the assignments and those of their
/// values.
#[derive(Drop)]
pub(crate) struct Assigns {
    alloc: Global,
    lives: AssignLives,
    values: ValueLives,
}

impl Model for Assigns {
    ghost use Rattle.std.specs.Prelude.{List};
    ghost use Rattle.reg_pit.specs.Lives.{AreOfMade};
    ghost use Rattle.reg_pit.specs.declared.assign_lives.AssignLife.{AssignLife};
    ghost use Rattle.reg_pit.specs.declared.value_lives.ValueLife.{ValueLife};

    ghost Value = { List AssignLife × List ValueLife };

    ghost view = { λ a. (a.lives, a.values) };

    ghost invariant = { λ a. AreOfMade a.lives a.values };
}

impl Assigns {
    /// Nothing was ever assigned. Takes no memory.
    pub(crate) fn new(alloc: Global) -> Assigns
        ensures { result ≡ ([], []) }
    {
        Assigns {
            alloc,
            lives: AssignLives::new(alloc),
            values: ValueLives::new(alloc),
        }
    }

    /// An attribute is assigned to an owner.
    fn made(
        self,
        assign: AssignId,
        attribute: AttrId,
        owner: Object,
        at: Moment,
    ) -> Result<Assigns, AllocError>
        requires new { IsNew (change.Made assign attribute owner) (last_of self) }
        requires last { AreAssignedBy at self }
        ensures { IfOk result (λ after. Noted at (change.Made assign attribute owner) self after) }
    {
        let Assigns {
            alloc,
            lives,
            values,
        } = self;
        let lives = lives.with(AssignLife {
            id: assign,
            attribute,
            owner,
            from: at,
            until: None,
        })?;
        Ok(Assigns {
            alloc,
            lives,
            values,
        })
    }

    /// An assignment goes.
    fn gone(self, assign: AssignId, at: Moment) -> Assigns
        requires { AreAssignedBy at self }
        ensures { Noted at (change.Gone assign) self result }
    {
        let Assigns {
            alloc,
            mut lives,
            values,
        } = self;
        lives.end(assign, at);
        Assigns {
            alloc,
            lives,
            values,
        }
    }

    /// A value comes behind the others of an assignment. One of an assignment that was never made
    /// is let go.
    fn value_added(
        self,
        assign: AssignId,
        value: AttrValue,
        at: Moment,
    ) -> Result<Assigns, AllocError>
        requires { AreAssignedBy at self }
        ensures { IfOk result (λ after. Noted at (change.ValueAdded assign value) self after) }
    {
        if !self.lives.has(assign) {
            return Ok(self);
        }
        let Assigns {
            alloc,
            lives,
            values,
        } = self;
        let values = values.with(assign, value, at)?;
        Ok(Assigns {
            alloc,
            lives,
            values,
        })
    }

    /// The first value of an assignment that is this one goes.
    fn value_removed(self, assign: AssignId, value: AttrValue, at: Moment) -> Assigns
        requires { AreAssignedBy at self }
        ensures { Noted at (change.ValueRemoved assign value) self result }
    {
        let Assigns {
            alloc,
            lives,
            mut values,
        } = self;
        values.remove_first(assign, value, at);
        Assigns {
            alloc,
            lives,
            values,
        }
    }

    /// An owner goes.
    fn owner_gone(self, owner: Object, at: Moment) -> Result<Assigns, AllocError>
        requires { AreAssignedBy at self }
        ensures { IfOk result (λ after. Noted at (change.OwnerGone owner) self after) }
    {
        let Assigns {
            alloc,
            lives,
            values,
        } = self;
        let lives = lives.end_on(owner, at)?;
        Ok(Assigns {
            alloc,
            lives,
            values,
        })
    }

    /// From a moment on the assignments are those after a change; nothing was noted later.
    pub(crate) fn note(self, change: AssignChange, at: Moment) -> Result<Assigns, AllocError>
        requires new { IsNew change (last_of self) }
        requires last { AreAssignedBy at self }
        ensures { IfOk result (λ after. Noted at change self after) }
    {
        match change {
            AssignChange::Made {
                assign,
                attribute,
                owner,
            } => self.made(assign, attribute, owner, at),
            AssignChange::Gone { assign } => Ok(self.gone(assign, at)),
            AssignChange::ValueAdded { assign, value } => self.value_added(assign, value, at),
            AssignChange::ValueRemoved { assign, value } => {
                Ok(self.value_removed(assign, value, at))
            }
            AssignChange::OwnerGone { owner } => self.owner_gone(owner, at),
        }
    }

    /// The assignment of a life as it was at a moment.
    fn row_at(&self, life: &AssignLife, t: Moment) -> Result<AssignRow, AllocError>
        ensures { IfOk result (λ row. row ≡ row_of (λ a. values_at self.now.1 a t) life.now) }
    {
        let values = self.values.at(life.id, t)?;
        Ok(AssignRow {
            id: life.id,
            attribute: life.attribute,
            owner: life.owner,
            values,
        })
    }

    /// The assignments to an owner at a moment, by id, with the values that stood then. Costs what
    /// was ever assigned to it.
    pub(crate) fn on(&self, owner: Object, t: Moment) -> Result<Vec<AssignRow>, AllocError>
        ensures { IfOk result (λ rows. rows.items
            ≡ filter (λ (row : AssignRow). same_object row.owner owner) (assigned_at self.now t)) }
    {
        let mut rows = Vec::new(self.alloc);
        for life in self.lives.on(owner) {
            if life.had(t) {
                rows.push(self.row_at(life, t)?)?;
            }
        }
        Ok(rows)
    }

    /// The life of an assignment with those of its values.
    fn past_of(&self, life: &AssignLife) -> Result<PastAssign, AllocError>
        ensures { IfOk result (λ past. past ≡ with_values self.now.1 life.now) }
    {
        let values = self.values.lives_in(life.id)?;
        Ok(PastAssign {
            life: *life,
            values,
        })
    }

    /// What was ever assigned to an owner. Costs as much.
    pub(crate) fn past_on(&self, owner: Object) -> Result<AssignedPast, AllocError>
        ensures { IfOk result (λ past. past
            ≡ map (with_values self.now.1) (on_owner owner self.now.0)) }
    {
        let mut assigns = Vec::new(self.alloc);
        for life in self.lives.on(owner) {
            assigns.push(self.past_of(life)?)?;
        }
        Ok(AssignedPast { assigns })
    }

    /// Adds the moments at which an assignment or a value in it came or went.
    fn add_changes_of(
        &self,
        life: &AssignLife,
        moments: &mut BTreeSet<Moment>,
    ) -> Result<(), AllocError>
        ensures { OnOk result ((m : ℕ) → among m moments.new.keys
            ≡ (among m moments.old.keys || assign_changes self.now.1 m life.now)) }
    {
        add_ends(moments, life.from, life.until)?;
        self.values.add_changes(life.id, moments)
    }

    /// Adds those of all assignments to an owner.
    fn add_changes_on(
        &self,
        owner: Object,
        moments: &mut BTreeSet<Moment>,
    ) -> Result<(), AllocError>
        ensures { OnOk result ((m : ℕ) → among m moments.new.keys
            ≡ (among m moments.old.keys || changes_on self.now owner m)) }
    {
        for life in self.lives.on(owner) {
            self.add_changes_of(life, moments)?;
        }
        Ok(())
    }

    /// The moments at which what is assigned to an owner may have changed, and 0, in order. Costs
    /// what was ever assigned to the owner, sorted.
    pub(crate) fn moments(&self, owner: Object) -> Result<Vec<Moment>, AllocError>
        ensures { IfOk result (λ moments.
            Lists (λ m. (0 == m) || changes_on self.now owner m) moments.items) }
    {
        let mut moments = BTreeSet::new(self.alloc);
        add(&mut moments, Moment::start())?;
        self.add_changes_on(owner, &mut moments)?;
        listed(self.alloc, &moments)
    }
}
