// The moments at which a group was certified.
ghost use Rattle.std.specs.Prelude.{◌≡◌, ◌++◌, filter_map, map, IfOk, OnOk};
ghost use Rattle.std.specs.Map.Iter.{deref};
ghost use Rattle.reg_access.specs.Assigned.{moment_given, moments_in};

use reg_base::Moment;
use reg_terms::{AssignRow, AttrValue};
use std::alloc::{AllocError, Global};

/// The moment that a value is. None exactly where it is a whole number or a text.
fn moment_given(value: &AttrValue) -> Option<Moment>
    ensures { result ≡ moment_given value.now }
{
    match value {
        AttrValue::Moment(moment) => Some(*moment),
        AttrValue::Int(_) | AttrValue::Text(_) => None,
    }
}

/// Adds the moments among some values.
fn push_moments(moments: &mut Vec<Moment>, values: &[&AttrValue]) -> Result<(), AllocError>
    ensures { OnOk result (moments.new.items
        ≡ moments.old.items ++ filter_map moment_given (map deref values.now)) }
{
    for value in values {
        if let Some(moment) = moment_given(*value) {
            moments.push(moment)?;
        }
    }
    Ok(())
}

/// The moments among the values of some assignments, one assignment after another.
pub(crate) fn moments_in(alloc: Global, rows: &[AssignRow]) -> Result<Vec<Moment>, AllocError>
    ensures { IfOk result (λ moments. moments.items ≡ moments_in rows.now) }
{
    let mut moments = Vec::new(alloc);
    for row in rows {
        let values = row.values.list()?;
        push_moments(&mut moments, &values)?;
    }
    Ok(moments)
}
