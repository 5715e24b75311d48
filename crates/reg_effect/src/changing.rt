// Changes of the kept memberships, one after another.
ghost use Rattle.std.specs.Prelude.{◌≡◌, ◌+◌, ◌≤◌, IfOk, OnOk};
ghost use Rattle.reg_effect.specs.declared.live.Live.{Live};
ghost use Rattle.reg_effect.specs.Turned.{Remembers};
ghost use Rattle.reg_effect.specs.Changes.{changed, changed_by, all_on, Suits, SuitAll};
ghost use Rattle.reg_effect.specs.Bound.{most_steps, most_steps_of};

use crate::{Change, Kept, Turned};
use reg_base::{GroupId, Steps};
use reg_terms::Member;
use std::alloc::AllocError;
use std::sync::ledger::Ledger;

/// Carries out one change, and remembers whom it turns. It takes at most the steps of the change.
/// Out of memory the memberships are given up.
pub fn change_one<K: Kept, L: Ledger>(
    kept: K,
    change: &Change,
    turned: &mut Turned,
    steps: &mut Steps<L>,
) -> Result<K, AllocError>
    requires { Suits change.now (K.held kept) }
    ensures held { IfOk result (λ k. K.held k ≡ changed change.now (K.held kept)) }
    ensures told { IfOk result (λ k. (M : Live) → Remembers M (K.held kept) turned.old
        → Remembers M (K.held k) turned.new) }
    ensures cost { OnOk result (steps.new ≤ steps.old + most_steps change.now (K.held kept)) }
{
    let (kept, delta) = kept.change(change, steps)?;
    turned.add(&delta)?;
    Ok(kept)
}

/// Puts rows on, one after another. For the rest as `change_one`.
#[tactic(auto, unfolding(crate::specs::Bound::most_steps_of))]
pub fn put_on<K: Kept, L: Ledger>(
    kept: K,
    rows: &[(GroupId, Member)],
    turned: &mut Turned,
    steps: &mut Steps<L>,
) -> Result<K, AllocError>
    requires { SuitAll (all_on rows.now) (K.held kept) }
    ensures held { IfOk result (λ k. K.held k ≡ changed_by (all_on rows.now) (K.held kept)) }
    ensures told { IfOk result (λ k. (M : Live) → Remembers M (K.held kept) turned.old
        → Remembers M (K.held k) turned.new) }
    ensures cost { OnOk result (steps.new
        ≤ steps.old + most_steps_of (all_on rows.now) (K.held kept)) }
{
    let mut kept = kept;
    for row in rows {
        let change = Change::RowOn {
            group: row.0,
            member: row.1,
        };
        kept = change_one(kept, &change, turned, steps)?;
    }
    Ok(kept)
}
