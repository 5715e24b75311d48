// When each assignment stood.
ghost use Rattle.std.specs.Prelude.{◌≡◌, ◌≤◌, ◌<◌, ◌==◌, ◌++◌, ◌∷◌, [], true, map, IfOk};
ghost use Rattle.std.specs.List.{list_any};
ghost use Rattle.reg_terms.specs.Kinds.{same_object};
ghost use Rattle.reg_pit.specs.Lives.{had, is_life, ended, gone_if, Rising, ids_of, last_made};
ghost use Rattle.reg_pit.specs.Lives.{on_owner};
ghost use Rattle.reg_pit.specs.declared.assign_lives.AssignLife.{AssignLife};

use reg_base::{AssignId, AttrId, Moment};
use reg_table::{GroupRows, Row, Table};
use reg_terms::Object;
use std::alloc::{AllocError, Global};
use std::collections::BTreeMap;
use std::marker::Model;

/// From when until when an assignment stood.
#[derive(Clone, Copy)]
pub(crate) struct AssignLife {
    pub(crate) id: AssignId,
    pub(crate) attribute: AttrId,
    pub(crate) owner: Object,
    pub(crate) from: Moment,
    pub(crate) until: Option<Moment>,
}

impl Row for AssignLife {
    type Group = Object;

    type Place = AssignId;

    ghost group_of = { λ life. life.owner };

    ghost place_of = { λ life. life.id };

    fn group(&self) -> Object {
        self.owner
    }

    fn place(&self) -> AssignId {
        self.id
    }
}

impl AssignLife {
    /// Whether the assignment stood at a moment.
    pub(crate) fn had(&self, t: Moment) -> bool
        ensures { result ≡ had t self.now }
    {
        match self.until {
            None => self.from.micros() <= t.micros(),
            Some(until) => { self.from.micros() <= t.micros() && t.micros() < until.micros() }
        }
    }

    /// The life with this end, unless it has one.
    fn ended(&self, at: Moment) -> AssignLife
        ensures { result ≡ ended at self.now }
    {
        match self.until {
            None => AssignLife {
                until: Some(at),
                ..*self
            },
            Some(_) => *self,
        }
    }
}

/// Lets the life of an assignment end, unless it has an end.
fn end_life(lives: &mut Table<AssignLife>, owner: Object, assign: AssignId, at: Moment)
    requires { Rising 0 (ids_of lives.old) }
    ensures { lives.new ≡ map (gone_if (is_life owner assign) at) lives.old }
{
    if let Some(life) = lives.get(owner, assign) {
        let ended = life.ended(at);
        lives.replace(ended);
    }
}

/// When each assignment stood. Contracts see a life for each assignment ever made, by id.
#[derive(Drop)]
pub(crate) struct AssignLives {
    alloc: Global,
    lives: Table<AssignLife>,
    /// The owner of each assignment ever made.
    owners: BTreeMap<AssignId, Object>,
}

impl Model for AssignLives {
    ghost use Rattle.std.specs.Prelude.{List};
    ghost use Rattle.reg_pit.specs.Lives.{AreLives};
    ghost use Rattle.reg_pit.specs.declared.assign_lives.AssignLife.{AssignLife};

    ghost Value = { List AssignLife };

    ghost view = { λ l. l.lives };

    ghost invariant = { λ l. AreLives l.lives l.owners };
}

impl AssignLives {
    /// No assignment was ever made. Takes no memory.
    pub(crate) fn new(alloc: Global) -> AssignLives
        ensures { result ≡ [] }
    {
        AssignLives {
            alloc,
            lives: Table::new(alloc),
            owners: BTreeMap::new(alloc),
        }
    }

    /// One life more, of an assignment of a later id.
    pub(crate) fn with(self, life: AssignLife) -> Result<AssignLives, AllocError>
        requires { last_made self < life.id }
        ensures { IfOk result (λ after. after ≡ self ++ life ∷ []) }
    {
        // so that the borrow checker's part is told of the modules of what a life holds
        let (_from, _until) = (life.from, life.until);
        let AssignLives {
            alloc,
            mut lives,
            mut owners,
        } = self;
        owners.insert(life.id, life.owner)?;
        lives.push(life)?;
        Ok(AssignLives {
            alloc,
            lives,
            owners,
        })
    }

    /// Whether an assignment was ever made.
    pub(crate) fn has(&self, assign: AssignId) -> bool
        ensures value { result ≡ list_any (λ (life : AssignLife). life.id == assign) self.now }
        ensures low { result ≡ true → assign ≤ last_made self.now }
    {
        self.owners.contains_key(&assign)
    }

    /// From a moment on an assignment to an owner doesn't stand.
    fn end_of(&mut self, owner: &Object, assign: AssignId, at: Moment)
        ensures { self.new ≡ map (gone_if (is_life owner.now assign) at) self.old }
    {
        end_life(&mut self.lives, *owner, assign, at);
    }

    /// From a moment on an assignment doesn't stand.
    pub(crate) fn end(&mut self, assign: AssignId, at: Moment)
        ensures { self.new ≡ map (gone_if (λ (life : AssignLife). life.id == assign) at) self.old }
    {
        if let Some(owner) = self.owners.get(&assign).copied() {
            self.end_of(&owner, assign, at);
        }
    }

    /// The ids of all assignments ever made to an owner, in order.
    fn ids_on(&self, owner: &Object) -> Result<Vec<AssignId>, AllocError>
        ensures { IfOk result (λ ids. ids.items ≡ ids_of (on_owner owner.now self.now)) }
    {
        let mut ids = Vec::new(self.alloc);
        for life in self.lives.rows_of(*owner) {
            ids.push(life.id)?;
        }
        Ok(ids)
    }

    /// From a moment on no assignment to an owner stands. Costs what was ever assigned to it.
    pub(crate) fn end_on(self, owner: Object, at: Moment) -> Result<AssignLives, AllocError>
        ensures { IfOk result (λ after. after
            ≡ map (gone_if (λ (life : AssignLife). same_object life.owner owner) at) self) }
    {
        let ids = self.ids_on(&owner)?;
        let mut after = self;
        for id in &ids {
            after.end_of(&owner, *id, at);
        }
        Ok(after)
    }

    /// The lives of the assignments ever made to an owner, by id. Takes no memory.
    pub(crate) fn on(&self, owner: Object) -> GroupRows<'_, AssignLife>
        ensures { result ≡ on_owner owner self.now }
    {
        self.lives.rows_of(owner)
    }
}
