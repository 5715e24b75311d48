// What is told of a command that was kept under a key.

/// The number of a command that was kept under a key, and the id of what it made, where it has one
/// and no name.
#[derive(Clone, Copy, Debug, PartialEq, Eq)]
pub struct Keyed {
    pub number: u64,
    pub id: Option<u64>,
}
