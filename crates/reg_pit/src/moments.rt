// Moments at which something changed, each once.
ghost use Rattle.std.specs.Prelude.{◌≡◌, ◌==◌, ◌||◌, ℕ, IfOk, OnOk};
ghost use Rattle.std.specs.List.Sorted.{IsStrictlySortedBy};
ghost use Rattle.std.specs.Ordering.{nat_cmp};
ghost use Rattle.reg_pit.specs.Changes.{among, is_end};

use reg_base::Moment;
use std::alloc::{AllocError, Global};
use std::collections::BTreeSet;

/// Adds a moment.
#[tactic(auto, using(crate::proofs::Changes::one_more))]
pub(crate) fn add(moments: &mut BTreeSet<Moment>, moment: Moment) -> Result<(), AllocError>
    ensures { OnOk result ((m : ℕ) → among m moments.new.keys
        ≡ ((moment == m) || among m moments.old.keys)) }
{
    moments.insert(moment)?;
    Ok(())
}

/// Adds the moments at which an interval begins and ends.
pub(crate) fn add_ends(
    moments: &mut BTreeSet<Moment>,
    from: Moment,
    until: Option<Moment>,
) -> Result<(), AllocError>
    ensures { OnOk result ((m : ℕ) → among m moments.new.keys
        ≡ (is_end m (from, until) || among m moments.old.keys)) }
{
    add(moments, from)?;
    if let Some(end) = until {
        add(moments, end)?;
    }
    Ok(())
}

/// The moments, in order.
pub(crate) fn listed(alloc: Global, moments: &BTreeSet<Moment>) -> Result<Vec<Moment>, AllocError>
    ensures value { IfOk result (λ listed. listed.items ≡ moments.now.keys) }
    ensures ascending { IfOk result (λ listed. IsStrictlySortedBy nat_cmp listed.items) }
{
    let mut listed = Vec::new(alloc);
    for moment in moments.iter() {
        listed.push(*moment)?;
    }
    Ok(listed)
}
