// Which stamped commands have a payload.
ghost use Rattle.std.specs.Prelude.{◌≡◌, ◌&&◌};
ghost use Rattle.reg_ops.specs.Forms.{is_entity, is_moment, has_form, key_fits, takes_key};

use reg_base::{Entity, Moment, is_name, is_person};
use reg_ops::{has_form, key_fits, takes_key};
use reg_terms::Stamped;

/// Whether the moment is one that may be stamped.
fn is_moment(moment: Moment) -> bool
    ensures { result ≡ is_moment moment }
{
    Moment::new(moment.micros()).is_some()
}

/// Whether who is named has the form of its kind.
fn is_entity(entity: &Entity) -> bool
    ensures { result ≡ is_entity entity.now }
{
    match entity {
        Entity::Person(text) => is_person(text.bytes()),
        Entity::Group(name) => is_name(name.bytes()),
        Entity::System | Entity::Everyone => true,
    }
}

/// Whether the stamped command has a payload: its moment, who gave it, its key and each field of
/// its command have their forms, and it isn't a load with a key. It takes no memory.
pub fn is_writable(stamped: &Stamped) -> bool
    ensures { result ≡ (is_moment stamped.now.at && (is_entity stamped.now.by
        && (key_fits (takes_key stamped.now.command) stamped.now.key
        && has_form stamped.now.command))) }
{
    is_moment(stamped.at)
        && is_entity(&stamped.by)
        && key_fits(takes_key(&stamped.command), &stamped.key)
        && has_form(&stamped.command)
}
