// The boundaries of a batch, each with its moment and that of the boundary before it.
ghost use Rattle.std.specs.Prelude.{◌≡◌, ◌≤◌, true, None, IfOk, if◌then◌else◌};
ghost use Rattle.std.specs.Option.{option_copied};
ghost use Rattle.std.specs.List.Sorted.{IsNonDecreasing};
ghost use Rattle.reg_prov.specs.Boundaries.{is_boundary, moment_at};
ghost use Rattle.reg_prov.specs.Steps.{AreBoundaries, AreChained, first_from};

use crate::ends::{is_boundary, moment_at};
use reg_base::Moment;
use std::alloc::{AllocError, Global};

/// A boundary of the log, with its moment and that of the boundary before it, if that isn't 0.
#[derive(Clone, Copy)]
pub struct Boundary {
    pub number: u64,
    pub at: Moment,
    pub before: Option<Moment>,
}

/// The moment whose last entry has a number.
fn moment_ending(moments: &[Moment], number: u64) -> Option<Moment>
    ensures { result ≡ (if is_boundary moments.now number then moment_at moments.now number
        else None) }
{
    if is_boundary(moments, number) {
        moment_at(moments, number)
    } else {
        None
    }
}

/// The boundaries behind a start, which is one too, and up to a last number, in the log whose
/// entries have these moments. Costs the entries in between. The only error is out of memory.
pub fn boundaries_of(
    alloc: Global,
    moments: &[Moment],
    start: u64,
    last: u64,
) -> Result<Vec<Boundary>, AllocError>
    requires begins { is_boundary moments.now start ≡ true }
    requires inside { start ≤ last }
    requires rise { IsNonDecreasing moments.now }
    ensures { IfOk result (λ boundaries. AreBoundaries moments.now start last boundaries.items) }
{
    let mut boundaries = Vec::new(alloc);
    let mut before = moment_at(moments, start);
    let mut number = start;
    while number < last {
        number += 1;
        if let Some(at) = moment_ending(moments, number) {
            boundaries.push(Boundary { number, at, before })?;
            before = Some(at);
        }
    }
    Ok(boundaries)
}

/// The first boundary whose moment isn't before one. Costs a binary search.
pub fn first_from(boundaries: &[Boundary], moment: Moment) -> Option<&Boundary>
    requires { AreChained boundaries.now }
    ensures { option_copied result ≡ first_from moment boundaries.now }
{
    let place = boundaries.partition_point(|boundary| boundary.at.micros() < moment.micros());
    boundaries.get(place)
}
