// What an entry of the log says.
use reg_base::Moment;
use reg_terms::{EntryKind, Holder, Object};

/// An entry of the log.
#[derive(Clone, Copy)]
pub struct Entry {
    /// Its number, from 1.
    pub seq: u64,
    pub at: Moment,
    pub kind: EntryKind,
    /// What was changed, or the group whose member began or ended.
    pub object: Option<Object>,
    /// The member of a row, the holder of a privilege, or the person who is a member.
    pub entity: Option<Holder>,
    /// A privilege's code, the number of an assignment, of a rule or of a job, or the rule that
    /// acted; else 0.
    pub number: u64,
}

/// An entry without its number, which is its place in the log, from 1.
#[derive(Clone, Copy)]
pub struct Line {
    pub at: Moment,
    pub kind: EntryKind,
    pub object: Option<Object>,
    pub entity: Option<Holder>,
    pub number: u32,
}
