// Rows and their stamps.

/// A row, and its stamp: a number above those of the rows that were added before.
#[derive(Drop)]
pub struct Stamped<R> {
    pub stamp: u64,
    pub row: R,
}
