// Why what a message asks wasn't read.
ghost use Rattle.std.specs.Prelude.{◌≡◌};
ghost use Rattle.reg_calls.specs.Unread.{IsBad, IsBadName, IsBadMoment};

use reg_base::Text;
use reg_terms::Refusal;
use std::alloc::{AllocError, Global};

/// Why what a message asks wasn't read.
#[derive(Drop)]
pub(crate) enum Unread {
    /// There was no memory.
    Memory,
    /// It is refused.
    Refused(Refusal),
}

impl From<AllocError> for Unread {
    ghost use Rattle.reg_calls.specs.declared.unread.Unread.TheVariants.{Memory};

    ghost from_gives = { λ _ e. e ≡ Memory };

    fn from(_: AllocError) -> Self {
        Unread::Memory
    }
}

/// BadRequest of a field, or no memory to say so.
pub(crate) fn bad(alloc: Global, field: &str) -> Unread
    ensures { IsBad result field.now }
{
    match Text::new(alloc, field) {
        Ok(field) => Unread::Refused(Refusal::BadRequest { field }),
        Err(_) => Unread::Memory,
    }
}

/// BadName of a field, or no memory to say so.
pub(crate) fn bad_name(alloc: Global, field: &str) -> Unread
    ensures { IsBadName result field.now }
{
    match Text::new(alloc, field) {
        Ok(field) => Unread::Refused(Refusal::BadName { field }),
        Err(_) => Unread::Memory,
    }
}

/// BadMoment of a field, or no memory to say so.
pub(crate) fn bad_moment(alloc: Global, field: &str) -> Unread
    ensures { IsBadMoment result field.now }
{
    match Text::new(alloc, field) {
        Ok(field) => Unread::Refused(Refusal::BadMoment { field }),
        Err(_) => Unread::Memory,
    }
}
