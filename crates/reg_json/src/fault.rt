// Why a request wasn't read.
ghost use Rattle.std.specs.Prelude.{◌≡◌};

use reg_base::Text;
use reg_terms::Refusal;
use std::alloc::{AllocError, Global};
use thiserror::Error;

/// Why a request wasn't read.
#[derive(Debug, Drop, Error)]
pub enum ReadFault {
    /// There was no memory.
    #[error("out of memory")]
    Memory,
    /// The line is no request.
    #[error(transparent)]
    Refused(Refusal),
}

impl From<AllocError> for ReadFault {
    ghost use Rattle.reg_json.specs.declared.fault.ReadFault.TheVariants.{Memory};

    ghost from_gives = { λ _ e. e ≡ Memory };

    fn from(_: AllocError) -> Self {
        ReadFault::Memory
    }
}

ghost use Rattle.reg_json.specs.Steps.{IsBad, IsBadName, IsBadMoment};

/// BadRequest of a field, or no memory to say so.
pub fn bad(alloc: Global, field: &str) -> ReadFault
    ensures { IsBad result field.now }
{
    match Text::new(alloc, field) {
        Ok(field) => ReadFault::Refused(Refusal::BadRequest { field }),
        Err(_) => ReadFault::Memory,
    }
}

/// BadName of a field, or no memory to say so.
pub fn bad_name(alloc: Global, field: &str) -> ReadFault
    ensures { IsBadName result field.now }
{
    match Text::new(alloc, field) {
        Ok(field) => ReadFault::Refused(Refusal::BadName { field }),
        Err(_) => ReadFault::Memory,
    }
}

/// BadMoment of a field, or no memory to say so.
pub fn bad_moment(alloc: Global, field: &str) -> ReadFault
    ensures { IsBadMoment result field.now }
{
    match Text::new(alloc, field) {
        Ok(field) => ReadFault::Refused(Refusal::BadMoment { field }),
        Err(_) => ReadFault::Memory,
    }
}
