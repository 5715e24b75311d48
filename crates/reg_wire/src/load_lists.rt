// Reading the lists of a load: a count, and so many items behind it.
ghost use Rattle.std.specs.Prelude.{◌≡◌};
ghost use Rattle.reg_wire.specs.Steps.{Gives};
ghost use Rattle.reg_wire.specs.Reading.{items_at, list_at, name_at, names_at, load_row_at};
ghost use Rattle.reg_wire.specs.Reading.{load_rows_at};

use crate::fault::ReadFault;
use crate::fields::{name_at, person_at, u32_at};
use reg_terms::{LoadRow, LoadRows, Names};
use std::alloc::Global;

/// So many names. The loop ends where the bytes do, since each name has two bytes at least; and
/// memory is taken as names come, however many the count says.
fn so_many_names(alloc: Global, count: u32, bytes: &[u8]) -> Result<(Names, &[u8]), ReadFault>
    ensures { Gives (λ x. (x.0, x.1.now)) result (items_at name_at count bytes.now) }
{
    let mut names = Names::new(alloc);
    let mut rest = bytes;
    for _ in 0..count {
        let (name, after) = name_at(alloc, rest)?;
        names.push(name)?;
        rest = after;
    }
    Ok((names, rest))
}

/// Names of objects.
#[tactic(auto, unfolding(crate::specs::Reading::list_at))]
pub fn names_at(alloc: Global, bytes: &[u8]) -> Result<(Names, &[u8]), ReadFault>
    ensures { Gives (λ x. (x.0, x.1.now)) result (names_at bytes.now) }
{
    let (count, rest) = u32_at(bytes)?;
    so_many_names(alloc, count, rest)
}

/// A row of a load.
#[tactic(auto, unfolding(crate::specs::Reading::load_row_at))]
fn load_row_at(alloc: Global, bytes: &[u8]) -> Result<(LoadRow, &[u8]), ReadFault>
    ensures { Gives (λ x. (x.0, x.1.now)) result (load_row_at bytes.now) }
{
    let (group, rest) = name_at(alloc, bytes)?;
    let (person, rest) = person_at(alloc, rest)?;
    Ok((LoadRow { group, person }, rest))
}

/// So many rows of a load, under the conditions of `so_many_names`.
fn so_many_rows(alloc: Global, count: u32, bytes: &[u8]) -> Result<(LoadRows, &[u8]), ReadFault>
    ensures { Gives (λ x. (x.0, x.1.now)) result (items_at load_row_at count bytes.now) }
{
    let mut rows = LoadRows::new(alloc);
    let mut rest = bytes;
    for _ in 0..count {
        let (row, after) = load_row_at(alloc, rest)?;
        rows.push(row)?;
        rest = after;
    }
    Ok((rows, rest))
}

/// Rows of a load.
#[tactic(auto, unfolding(crate::specs::Reading::list_at))]
pub fn load_rows_at(alloc: Global, bytes: &[u8]) -> Result<(LoadRows, &[u8]), ReadFault>
    ensures { Gives (λ x. (x.0, x.1.now)) result (load_rows_at bytes.now) }
{
    let (count, rest) = u32_at(bytes)?;
    so_many_rows(alloc, count, rest)
}
