// Why a session stops.
ghost use Rattle.std.specs.Prelude.{◌≡◌};
ghost use Rattle.reg_session.specs.Stops.{stop_of};

use reg_service::Cause;
use thiserror::Error;

/// Why a session stopped.
#[derive(Clone, Copy, Debug, PartialEq, Eq, Error)]
pub enum Stop {
    /// There was no memory to go on.
    #[error("there was no memory to go on")]
    Memory,
    /// The disk failed.
    #[error("the disk failed")]
    Disk,
    /// The input failed.
    #[error("the input failed")]
    Input,
    /// The output failed.
    #[error("the output failed")]
    Output,
    /// Too many bytes were read.
    #[error("too many bytes were read")]
    TooMuch,
}

/// A service's cause as a session's.
pub fn stop_of(cause: Cause) -> Stop
    ensures { result ≡ stop_of cause }
{
    match cause {
        Cause::Memory => Stop::Memory,
        Cause::Disk => Stop::Disk,
    }
}
