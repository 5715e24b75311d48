// Why a load doesn't suit the facts.
use reg_base::Text;
use std::fmt;
use thiserror::Error;

/// Why a load doesn't suit the facts.
#[derive(Drop, Error)]
pub enum LoadFault {
    /// The group of a row is neither one of the job's nor a created one, or its person doesn't
    /// stand.
    #[error("{:?} is neither one of the job's groups nor a created one, or is no person that stands", object.as_str())]
    NotFound { object: Text },
    /// A created name isn't that of a group directly in the job's folder, or the job has no folder.
    #[error("a created name isn't that of a group directly in the job's folder")]
    WrongKind,
    /// A created name stands, or comes twice.
    #[error("{:?} stands already, or comes twice", object.as_str())]
    Taken { object: Text },
    /// An added row stands, or comes twice.
    #[error("an added row stands, or comes twice")]
    Already,
    /// A removed row is no row of a person in one of the job's groups, or comes twice.
    #[error("a removed row is no row of a person in one of the job's groups, or comes twice")]
    NoSuch,
    /// The one group of the job is a composite.
    #[error("the one group of the job is a composite")]
    IsComposite,
    /// More groups would be made than may be.
    #[error("more groups would be made than may be")]
    FullGroup,
    /// More rows would stand than may.
    #[error("more rows would stand than may")]
    FullRow,
    /// More grants would stand than may.
    #[error("more grants would stand than may")]
    FullGrant,
    /// More rows are added than a load may bring.
    #[error("more rows are added than a load may bring")]
    FullRecord,
}

impl fmt::Debug for LoadFault {
    fn fmt<W: fmt::Write>(&self, f: &mut fmt::Formatter<W>) -> fmt::Result {
        fmt::Display::fmt(self, f)
    }
}
