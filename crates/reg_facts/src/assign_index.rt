// What assignments are found by beside their ids.
ghost use Rattle.std.specs.Prelude.{◌≡◌, ◌==◌, ◌&&◌, ◌++◌, ◌∷◌, [], not, Some, false, true, filter};
ghost use Rattle.std.specs.Prelude.{IfOk, MatchOption};
ghost use Rattle.std.specs.List.{list_any};
ghost use Rattle.reg_terms.specs.Kinds.{same_object};
ghost use Rattle.reg_facts.specs.Assigning.{by_pair, same_key, KeysAscend};
ghost use Rattle.reg_facts.specs.declared.assign_index.AssignKey.{AssignKey};
ghost use Rattle.std.proofs.lemmas.Bool.{and_parts};

use crate::Object;
use reg_base::{AssignId, AttrId};
use reg_table::{GroupRows, LinkedRow, LinkedTable, Row, Table};
use std::alloc::{AllocError, Global};
use std::marker::Model;

/// What an assignment is found by: an owner's are listed by id.
#[derive(Clone, Copy)]
pub struct AssignKey {
    pub owner: Object,
    pub attribute: AttrId,
    pub id: AssignId,
}

impl Row for AssignKey {
    type Group = Object;

    type Place = (AssignId, AttrId);

    ghost group_of = { λ key. key.owner };

    ghost place_of = { λ key. (key.id, key.attribute) };

    fn group(&self) -> Object {
        self.owner
    }

    fn place(&self) -> (AssignId, AttrId) {
        (self.id, self.attribute)
    }
}

/// An assignment names its attribute.
impl LinkedRow for AssignKey {
    type Link = AttrId;

    ghost link_at = { λ _ place. Some place.1 };

    ghost link_alike = { λ g h p q group_is place_is.
        (and_parts (p.0 == q.0) (p.1 == q.1) place_is).1 };

    fn link(_owner: Object, place: (AssignId, AttrId)) -> Option<AttrId> {
        Some(place.1)
    }
}

/// The same key, found by owner and attribute together.
#[derive(Clone, Copy)]
pub struct ByPair {
    pub key: AssignKey,
}

impl Row for ByPair {
    type Group = (Object, AttrId);

    type Place = AssignId;

    ghost group_of = { λ pair. (pair.key.owner, pair.key.attribute) };

    ghost place_of = { λ pair. pair.key.id };

    fn group(&self) -> (Object, AttrId) {
        (self.key.owner, self.key.attribute)
    }

    fn place(&self) -> AssignId {
        self.key.id
    }
}

/// The keys of assignments. Contracts see the list of them, in the order in which they were added.
#[derive(Drop)]
pub struct AssignIndex {
    keys: LinkedTable<AssignKey>,
    pairs: Table<ByPair>,
}

impl Model for AssignIndex {
    ghost use Rattle.std.specs.Prelude.{◌≡◌, List, map};
    ghost use Rattle.reg_facts.specs.Assigning.{by_pair};
    ghost use Rattle.reg_facts.specs.declared.assign_index.AssignKey.{AssignKey};

    ghost Value = { List AssignKey };

    ghost view = { λ t. t.keys };

    ghost invariant = { λ t. t.pairs ≡ map by_pair t.keys };
}

/// The same key, found by owner and attribute together.
fn paired(key: &AssignKey) -> ByPair
    ensures { result ≡ by_pair key.now }
{
    ByPair { key: *key }
}

impl AssignIndex {
    /// No key. It takes no memory.
    pub fn new(alloc: Global) -> AssignIndex
        ensures { result ≡ [] }
    {
        AssignIndex {
            keys: LinkedTable::new(alloc),
            pairs: Table::new(alloc),
        }
    }

    /// Whether the key is there. It takes no memory, and costs a logarithm.
    pub fn contains(&self, key: &AssignKey) -> bool
        ensures { result ≡ list_any (same_key key.now) self.now }
    {
        self.keys.contains(key.owner, (key.id, key.attribute))
    }

    /// Whether an attribute is assigned to something. It takes no memory, and costs a logarithm.
    pub fn is_assigned(&self, attribute: AttrId) -> bool
        ensures { result ≡ list_any (λ (key : AssignKey). key.attribute == attribute) self.now }
    {
        self.keys.is_linked(attribute)
    }

    /// Whether an attribute is assigned to an owner. It takes no memory, and costs a logarithm.
    pub fn is_assigned_to(&self, owner: &Object, attribute: AttrId) -> bool
        ensures { result ≡ list_any (λ (key : AssignKey). same_object key.owner owner.now
            && (key.attribute == attribute)) self.now }
    {
        self.pairs.has_rows((*owner, attribute))
    }

    /// The keys of an owner, by id, among keys whose ids ascend. It takes no memory.
    pub fn on(&self, owner: &Object) -> GroupRows<'_, AssignKey>
        requires { KeysAscend self.now }
        ensures { result ≡ filter (λ (key : AssignKey). same_object key.owner owner.now) self.now }
    {
        self.keys.rows_of(*owner)
    }

    /// The id of the first key of an owner, among keys whose ids ascend. It takes no memory, and
    /// costs a logarithm.
    pub fn first_on(&self, owner: &Object) -> Option<AssignId>
        requires { KeysAscend self.now }
        ensures { MatchOption result
            (list_any (λ (key : AssignKey). same_object key.owner owner.now) self.now
            ≡ false) (λ id. list_any (λ (key : AssignKey). (key.id == id)
            && same_object key.owner owner.now) self.now ≡ true) }
    {
        let key = self.on(owner).next()?;
        Some(key.id)
    }

    /// The keys and one more that isn't there, behind the others. Where there is no memory they are
    /// gone.
    pub fn with(self, key: AssignKey) -> Result<AssignIndex, AllocError>
        requires { list_any (same_key key) self ≡ false }
        ensures { IfOk result (λ t. t ≡ self ++ key ∷ []) }
    {
        let AssignIndex {
            mut keys,
            mut pairs,
        } = self;
        pairs.push(paired(&key))?;
        keys.push(key)?;
        Ok(AssignIndex { keys, pairs })
    }

    /// Takes a key away. It takes no memory, and costs a logarithm.
    pub fn remove(&mut self, key: &AssignKey)
        ensures { self.new ≡ filter (λ (other : AssignKey). not (same_key key.now other)) self.old }
    {
        self.keys.remove(key.owner, (key.id, key.attribute));
        self.pairs.remove((key.owner, key.attribute), key.id);
    }
}
