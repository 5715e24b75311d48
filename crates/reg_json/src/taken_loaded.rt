// What a load did, taken from JSON data.
ghost use Rattle.std.specs.Prelude.{◌≡◌};
ghost use Rattle.serde_json.specs.View.{view};
ghost use Rattle.reg_json.specs.Takes.{Takes};
ghost use Rattle.reg_json.specs.Taking.{counts_from};

use crate::taking::{TakeFault, number_in};
use reg_terms::LoadCounts;
use serde_json::Value;

/// The counts of a load.
#[tactic(auto, unfolding(crate::specs::Taking::counts_from))]
pub fn counts_from(value: &Value) -> Result<LoadCounts, TakeFault>
    ensures { Takes (λ c. c) result (counts_from (view value.now)) }
{
    let added = number_in(value, "added")?;
    let bad_group = number_in(value, "bad_group")?;
    let created = number_in(value, "created")?;
    let removed = number_in(value, "removed")?;
    let repeated = number_in(value, "repeated")?;
    let unchanged = number_in(value, "unchanged")?;
    let unknown = number_in(value, "unknown")?;
    let vetoed = number_in(value, "vetoed")?;
    Ok(LoadCounts {
        created,
        removed,
        added,
        unchanged,
        unknown,
        repeated,
        vetoed,
        bad_group,
    })
}
