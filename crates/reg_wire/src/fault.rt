// Why bytes weren't read.
ghost use Rattle.std.specs.Prelude.{◌≡◌};

use std::alloc::AllocError;
use thiserror::Error;

/// Why bytes weren't read.
#[derive(Debug, Drop, Error)]
pub enum ReadFault {
    /// There was no memory.
    #[error("out of memory")]
    Memory,
    /// The bytes are no payload.
    #[error("the bytes are no payload")]
    Malformed,
}

impl From<AllocError> for ReadFault {
    ghost use Rattle.reg_wire.specs.declared.fault.ReadFault.TheVariants.{Memory};

    ghost from_gives = { λ _ e. e ≡ Memory };

    fn from(_: AllocError) -> Self {
        ReadFault::Memory
    }
}
