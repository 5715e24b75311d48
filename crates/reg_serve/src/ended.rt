// How a connection ends, and how serving does.
use thiserror::Error;

/// Why a connection is served no further.
#[derive(Clone, Copy, Debug, PartialEq, Eq, Error)]
pub enum Ended {
    /// No more bytes came, for now or at their end.
    #[error("no more bytes came, for now or at their end")]
    Silent,
    /// A message asked to close it.
    #[error("a message asked to close it")]
    Closed,
    /// A message has a head that isn't taken.
    #[error("a message has a head that isn't taken")]
    Bad,
    /// A read or a write failed.
    #[error("a read or a write failed")]
    Failed,
    /// Too many bytes were read.
    #[error("too many bytes were read")]
    TooMuch,
    /// There was no memory to go on.
    #[error("there was no memory to go on")]
    NoMemory,
    /// The service stopped.
    #[error("the service stopped")]
    Stopped,
}

/// Why no more connections are served.
#[derive(Clone, Copy, Debug, PartialEq, Eq, Error)]
pub enum Ceased {
    /// A call of the listener failed.
    #[error("a call of the listener failed")]
    Listener,
    /// There was no memory to go on.
    #[error("there was no memory to go on")]
    Memory,
    /// The keeper failed.
    #[error("the keeper failed")]
    Disk,
}
