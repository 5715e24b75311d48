// The accepted commands, and the keys that they were given under.
ghost use Rattle.std.specs.Prelude.{◌≡◌, ◌≤◌, ◌+◌, ◌^◌, ◌++◌, ◌∷◌, ◌&&◌, [], ℕ, List, Some, true};
ghost use Rattle.std.specs.Prelude.{IfOk, MatchOption, OnOk, length, option_map, if◌then◌else◌};
ghost use Rattle.std.specs.Str.{bytes_eq};
ghost use Rattle.reg_base.specs.declared.entity.Entity.{Entity};
ghost use Rattle.reg_ops.specs.Forms.{has_form};
ghost use Rattle.reg_keys.specs.Found.{found_in};
ghost use Rattle.reg_wire.specs.Payload.{command_bytes};
ghost use Rattle.reg_machine.specs.History.{facts};
ghost use Rattle.reg_machine.specs.Ids.{made_id};
ghost use Rattle.reg_machine.specs.Keys.{as_found, caller_text, is_free, is_kept_as};
ghost use Rattle.reg_machine.specs.Keys.{is_that_key, keyed};
ghost use Rattle.reg_machine.specs.Telling.{told_of};

use crate::keyed::Keyed;
use crate::unstored::Unstored;
use reg_base::Entity;
use reg_facts::Stamped;
use reg_keys::Keys;
use reg_wire::command_bytes;
use std::alloc::{AllocError, Global};

/// What tells a caller from all others: the text of a person or of an internal entity, a group's
/// name.
fn caller_text(by: &Entity) -> &[u8]
    ensures { result.now ≡ caller_text by.now }
{
    match by {
        Entity::Person(text) => text.bytes(),
        Entity::Group(name) => name.bytes(),
        Entity::System => b"g:isa/GrouperSystem",
        Entity::Everyone => b"g:isa/GrouperAll",
    }
}

/// Puts a command with its number and the id of what it made under its key, if it has one. Out of
/// memory the keys are of no more use.
fn put_key(
    alloc: Global,
    keys: &mut Keys,
    stamped: &Stamped,
    number: u64,
    id: Option<u64>,
) -> Result<(), AllocError>
    requires { has_form stamped.now.command ≡ true }
    ensures { OnOk result ((b k : List ℕ) → found_in keys.new b k
        ≡ (if bytes_eq (caller_text stamped.now.by) b && is_that_key k stamped.now.key
        then Some (number, id, command_bytes stamped.now.command) else found_in keys.old b k)) }
{
    match &stamped.key {
        Some(key) => {
            let bytes = command_bytes(alloc, &stamped.command)?;
            let by = caller_text(&stamped.by);
            keys.put(by, key.bytes(), number, id, bytes.as_slice())
        }
        None => Ok(()),
    }
}

/// The accepted commands, in order. Their number is stored, and what those that have a key are told
/// by. They themselves are not: what is answered comes from the facts and from the record of the
/// past, which an invariant of the machine ties to them.
#[derive(Drop)]
pub(crate) struct History {
    commands: Unstored<Stamped>,
    count: usize,
    keys: Keys,
    ghost counted: { count ≡ length commands.items },
    ghost tied: { (by : Entity) (key : List ℕ) → found_in keys (caller_text by) key
        ≡ option_map as_found (keyed commands.items by key) },
}

impl History {
    /// No command. It takes no memory.
    pub(crate) fn new(alloc: Global) -> History
        ensures { result.commands.items ≡ [] }
    {
        History {
            commands: Unstored::new(),
            count: 0,
            keys: Keys::new(alloc),
        }
    }

    /// How many commands there are.
    pub(crate) fn len(&self) -> usize
        ensures { result ≡ length self.now.commands.items }
    {
        self.count
    }

    /// The number of the command that this caller gave under this key, and the id of what it made.
    pub(crate) fn keyed(&self, by: &Entity, key: &[u8]) -> Option<Keyed>
        ensures { result ≡ option_map told_of (keyed self.now.commands.items by.now key.now) }
    {
        match self.keys.get(caller_text(by), key) {
            Some(found) => Some(Keyed {
                number: found.number,
                id: found.id,
            }),
            None => None,
        }
    }

    /// Whether this caller gave a command under this key, and it has these bytes.
    pub(crate) fn is_kept_as(&self, by: &Entity, key: &[u8], bytes: &[u8]) -> bool
        ensures { result ≡ is_kept_as (keyed self.now.commands.items by.now key.now) bytes.now }
    {
        match self.keys.get(caller_text(by), key) {
            Some(found) => found.bytes == bytes,
            None => false,
        }
    }

    /// The commands and one more, which is kept under its key, if it has one, with the id of what
    /// it made. None where their number isn't to be told any more.
    pub(crate) fn then(
        self,
        alloc: Global,
        stamped: &Stamped,
        id: Option<u64>,
    ) -> Result<Option<History>, AllocError>
        requires form { has_form stamped.now.command ≡ true }
        requires id { id ≡ made_id stamped.now.command
            (facts self.commands.items stamped.now.at) }
        requires free { is_free self.commands.items stamped.now.by stamped.now.key ≡ true }
        ensures { IfOk result (λ r. MatchOption r (2 ^ 64
            ≤ length self.commands.items + 1) (λ h. h.commands.items
            ≡ self.commands.items ++ stamped.now ∷ [])) }
    {
        let History {
            commands,
            count,
            mut keys,
        } = self;
        let Some(count) = count.checked_add(1) else {
            return Ok(None);
        };
        put_key(alloc, &mut keys, stamped, count as u64, id)?;
        Ok(Some(History {
            commands: commands.then(stamped),
            count,
            keys,
        }))
    }
}
