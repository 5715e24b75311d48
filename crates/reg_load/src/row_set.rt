// Rows of persons as a set.
ghost use Rattle.std.specs.Prelude.{◌≡◌, ◌||◌, IfOk, OnOk, false, not};
ghost use Rattle.reg_terms.specs.declared.rows.PersonRow.{PersonRow};
ghost use Rattle.reg_load.specs.PersonRows.{comes_twice, same_row};
ghost use Rattle.reg_load.specs.Sets.{holds};

use reg_terms::PersonRow;
use std::alloc::{AllocError, Global};
use std::collections::HashSet;

/// Rows of persons, each once, as the numbers of the group and the person. A row is found by its
/// hash.
#[derive(Drop)]
pub(crate) struct RowSet {
    pairs: HashSet<(u64, u32)>,
}

impl RowSet {
    /// No row, and room for so many. The only error is out of memory.
    fn with_capacity(alloc: Global, rows: usize) -> Result<RowSet, AllocError>
        ensures { IfOk result (λ set. (row : PersonRow) → holds set row ≡ false) }
    {
        let pairs = HashSet::with_capacity(alloc, rows)?;
        Ok(RowSet { pairs })
    }

    /// Adds a row, and tells whether it wasn't there.
    fn add(&mut self, row: &PersonRow) -> Result<bool, AllocError>
        ensures fresh { IfOk result (λ fresh. fresh ≡ not (holds self.old row.now)) }
        ensures added { OnOk result ((other : PersonRow)
            → holds self.new other ≡ (same_row other row.now || holds self.old other)) }
    {
        let fresh = self.pairs.insert((row.group, row.person.number()))?;
        Ok(fresh)
    }
}

/// Whether one of these rows comes twice. Each is looked up once.
pub(crate) fn comes_twice(alloc: Global, rows: &[PersonRow]) -> Result<bool, AllocError>
    ensures { IfOk result (λ twice. twice ≡ comes_twice rows.now) }
{
    let mut seen = RowSet::with_capacity(alloc, rows.len())?;
    for row in rows {
        let fresh = seen.add(row)?;
        if !fresh {
            return Ok(true);
        }
    }
    Ok(false)
}
