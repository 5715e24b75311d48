// Who a caller is.
ghost use Rattle.std.specs.Prelude.{◌≡◌};
ghost use Rattle.reg_priv.specs.May.{who_of, holds};

use reg_base::{Entity, SubjectId};
use reg_effect::Kept;
use reg_facts::{Facts, Holder};

/// Who may call: GrouperSystem, or a person.
#[derive(Clone, Copy)]
pub enum Who {
    System,
    Person(SubjectId),
}

/// Who an entity is as a caller. None exactly where it is neither GrouperSystem nor a person that
/// stands. It takes no memory.
pub fn who_of(facts: &Facts, caller: &Entity) -> Option<Who>
    ensures { result ≡ who_of caller.now facts.now }
{
    match caller {
        Entity::System => Some(Who::System),
        Entity::Person(text) => facts.subject_id(text.as_str()).map(Who::Person),
        Entity::Group(_) | Entity::Everyone => None,
    }
}

/// Whether a person is the holder, or in the group that is it.
fn person_holds<K: Kept>(kept: &K, person: SubjectId, holder: &Holder) -> bool
    ensures { result ≡ holds (K.held kept.now) (Who.Person person) holder.now }
{
    match holder {
        Holder::Everyone => true,
        Holder::Person(other) => other.number() == person.number(),
        Holder::Group(group) => kept.is_member(*group, person),
    }
}

/// Whether a holder is the caller, everyone, or a group that has the caller. It takes no memory,
/// and looks into the kept memberships once at most.
pub fn holds<K: Kept>(kept: &K, who: &Who, holder: &Holder) -> bool
    ensures { result ≡ holds (K.held kept.now) who.now holder.now }
{
    match who {
        Who::System => matches!(holder, Holder::Everyone),
        Who::Person(person) => person_holds(kept, *person, holder),
    }
}
