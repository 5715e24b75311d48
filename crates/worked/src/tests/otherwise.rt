// What a test found otherwise than it should be.
use std::alloc::{AllocError, AllocFailed};
use thiserror::Error;

/// Why a test came out otherwise.
#[derive(Clone, Copy, Debug, PartialEq, Eq, Error)]
pub enum Otherwise {
    /// This should be so.
    #[error("not so: {0}")]
    NotSo(&'static str),
    /// There should be another number of these.
    #[error("{of}: wanted {wanted}, found {found}")]
    Number {
        of: &'static str,
        wanted: u64,
        found: u64,
    },
    /// The test found no memory.
    #[error("out of memory")]
    Memory,
}

impl From<AllocError> for Otherwise {
    fn from(_: AllocError) -> Self {
        Otherwise::Memory
    }
}

impl<T: Drop> From<AllocFailed<T>> for Otherwise {
    fn from(_: AllocFailed<T>) -> Self {
        Otherwise::Memory
    }
}

/// Wants something to be so.
pub fn expect(is_so: bool, what: &'static str) -> Result<(), Otherwise> {
    if is_so {
        return Ok(());
    }
    Err(Otherwise::NotSo(what))
}

/// Wants so many of these.
pub fn expect_number(found: u64, wanted: u64, of: &'static str) -> Result<(), Otherwise> {
    if found == wanted {
        return Ok(());
    }
    Err(Otherwise::Number { of, wanted, found })
}

/// The first thing that came out otherwise, if any did. A test that holds files goes on behind it,
/// so that they are dropped in one place.
pub struct Findings {
    otherwise: Result<(), Otherwise>,
}

impl Findings {
    /// Nothing came out otherwise yet.
    pub fn new() -> Findings {
        Findings { otherwise: Ok(()) }
    }

    /// Wants something to be so.
    pub fn expect(&mut self, is_so: bool, what: &'static str) {
        if !is_so && self.otherwise.is_ok() {
            self.otherwise = Err(Otherwise::NotSo(what));
        }
    }

    /// What came out otherwise first.
    pub fn end(self) -> Result<(), Otherwise> {
        let Findings { otherwise } = self;
        otherwise
    }
}
