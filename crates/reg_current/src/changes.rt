// The changes of live data that an event makes, carried out.
ghost use Rattle.std.specs.Prelude.{◌≡◌, ◌+◌, ◌≤◌, ◌∷◌, [], IfOk, OnOk, false};
ghost use Rattle.reg_effect.specs.declared.live.Live.{Live};
ghost use Rattle.reg_effect.specs.Order.{has_live_row};
ghost use Rattle.reg_effect.specs.Turned.{Remembers};
ghost use Rattle.reg_effect.specs.Changes.{changed_by, SuitAll};
ghost use Rattle.reg_effect.specs.Bound.{most_steps_of};
ghost use Rattle.reg_terms.specs.declared.event.Event.TheVariants.{RowAdded, RowRemoved};
ghost use Rattle.reg_terms.specs.declared.event.Event.TheVariants.{RowRedated};
ghost use Rattle.reg_current.specs.Steps.{changes_of, turning};

use reg_base::{GroupId, Moment, Steps};
use reg_effect::{Change, Kept, Turned, change_one};
use reg_facts::{Event, Member, MemberRow};
use std::alloc::AllocError;
use std::sync::ledger::Ledger;

/// Whether the group's row of the member is on.
fn is_on<K: Kept>(kept: &K, group: GroupId, member: &Member) -> bool
    ensures { result ≡ has_live_row group member.now (K.held kept.now).rows }
{
    kept.live().rows.has(group, *member)
}

/// A row turns on or off, or stays as it was before.
#[tactic(auto, unfolding(reg_effect::specs::Bound::most_steps_of))]
fn turn<K: Kept, L: Ledger>(
    kept: K,
    group: GroupId,
    member: Member,
    before: bool,
    after: bool,
    turned: &mut Turned,
    steps: &mut Steps<L>,
) -> Result<K, AllocError>
    requires { SuitAll (turning before after group member) (K.held kept) }
    ensures held { IfOk result (λ k. K.held k
        ≡ changed_by (turning before after group member) (K.held kept)) }
    ensures told { IfOk result (λ k. (M : Live) → Remembers M (K.held kept) turned.old
        → Remembers M (K.held k) turned.new) }
    ensures cost { OnOk result (steps.new
        ≤ steps.old + most_steps_of (turning before after group member) (K.held kept)) }
{
    if before && !after {
        return change_one(kept, &Change::RowOff { group, member }, turned, steps);
    }
    if !before && after {
        return change_one(kept, &Change::RowOn { group, member }, turned, steps);
    }
    Ok(kept)
}

/// A row comes. It is on where it has begun.
#[tactic(auto, using(reg_effect::proofs::LiveLaws::le_cmp), unfolding(crate::specs::Steps::changes_of))]
fn row_added<K: Kept, L: Ledger>(
    kept: K,
    at: Moment,
    row: &MemberRow,
    turned: &mut Turned,
    steps: &mut Steps<L>,
) -> Result<K, AllocError>
    requires { SuitAll (changes_of at (RowAdded row.now) (K.held kept)) (K.held kept) }
    ensures held { IfOk result (λ k. K.held k
        ≡ changed_by (changes_of at (RowAdded row.now) (K.held kept)) (K.held kept)) }
    ensures told { IfOk result (λ k. (M : Live) → Remembers M (K.held kept) turned.old
        → Remembers M (K.held k) turned.new) }
    ensures cost { OnOk result (steps.new
        ≤ steps.old + most_steps_of (changes_of at (RowAdded row.now) (K.held kept))
        (K.held kept)) }
{
    let after = row.from <= at;
    turn(kept, row.group, row.member, false, after, turned, steps)
}

/// The row of a member goes, whether it is on or not.
#[tactic(auto, unfolding(crate::specs::Steps::changes_of))]
fn row_removed<K: Kept, L: Ledger>(
    kept: K,
    at: Moment,
    group: GroupId,
    member: &Member,
    turned: &mut Turned,
    steps: &mut Steps<L>,
) -> Result<K, AllocError>
    requires { SuitAll (changes_of at (RowRemoved group member.now) (K.held kept)) (K.held kept) }
    ensures held { IfOk result (λ k. K.held k
        ≡ changed_by (changes_of at (RowRemoved group member.now) (K.held kept)) (K.held kept)) }
    ensures told { IfOk result (λ k. (M : Live) → Remembers M (K.held kept) turned.old
        → Remembers M (K.held k) turned.new) }
    ensures cost { OnOk result (steps.new
        ≤ steps.old + most_steps_of (changes_of at (RowRemoved group member.now) (K.held kept))
        (K.held kept)) }
{
    let _at = at;
    let before = is_on(&kept, group, member);
    turn(kept, group, *member, before, false, turned, steps)
}

/// The row of a member has other dates, and turns on or off by its new beginning.
#[tactic(auto, using(reg_effect::proofs::LiveLaws::le_cmp), unfolding(crate::specs::Steps::changes_of))]
fn row_redated<K: Kept, L: Ledger>(
    kept: K,
    at: Moment,
    group: GroupId,
    member: &Member,
    from: Moment,
    until: Option<Moment>,
    turned: &mut Turned,
    steps: &mut Steps<L>,
) -> Result<K, AllocError>
    requires { SuitAll (changes_of at (RowRedated group member.now from until) (K.held kept))
        (K.held kept) }
    ensures held { IfOk result (λ k. K.held k
        ≡ changed_by (changes_of at (RowRedated group member.now from until) (K.held kept))
        (K.held kept)) }
    ensures told { IfOk result (λ k. (M : Live) → Remembers M (K.held kept) turned.old
        → Remembers M (K.held k) turned.new) }
    ensures cost { OnOk result (steps.new
        ≤ steps.old + most_steps_of
        (changes_of at (RowRedated group member.now from until) (K.held kept)) (K.held kept)) }
{
    let _until = until;
    let before = is_on(&kept, group, member);
    let after = from <= at;
    turn(kept, group, *member, before, after, turned, steps)
}

/// A group becomes a composite, or is one no longer.
#[tactic(auto, unfolding(reg_effect::specs::Bound::most_steps_of))]
fn compose<K: Kept, L: Ledger>(
    kept: K,
    change: &Change,
    turned: &mut Turned,
    steps: &mut Steps<L>,
) -> Result<K, AllocError>
    requires { SuitAll (change.now ∷ []) (K.held kept) }
    ensures held { IfOk result (λ k. K.held k ≡ changed_by (change.now ∷ []) (K.held kept)) }
    ensures told { IfOk result (λ k. (M : Live) → Remembers M (K.held kept) turned.old
        → Remembers M (K.held k) turned.new) }
    ensures cost { OnOk result (steps.new
        ≤ steps.old + most_steps_of (change.now ∷ []) (K.held kept)) }
{
    change_one(kept, change, turned, steps)
}

/// Carries out the changes of live data that an event makes at a moment, in the kept memberships,
/// and remembers whom they turn. It takes at most the steps of these changes. Out of memory the
/// memberships are given up.
#[tactic(auto, unfolding(crate::specs::Steps::changes_of, reg_effect::specs::Bound::most_steps_of))]
pub fn carry_out<K: Kept, L: Ledger>(
    kept: K,
    at: Moment,
    event: &Event,
    turned: &mut Turned,
    steps: &mut Steps<L>,
) -> Result<K, AllocError>
    requires { SuitAll (changes_of at event.now (K.held kept)) (K.held kept) }
    ensures held { IfOk result (λ k. K.held k
        ≡ changed_by (changes_of at event.now (K.held kept)) (K.held kept)) }
    ensures told { IfOk result (λ k. (M : Live) → Remembers M (K.held kept) turned.old
        → Remembers M (K.held k) turned.new) }
    ensures cost { OnOk result (steps.new
        ≤ steps.old + most_steps_of (changes_of at event.now (K.held kept)) (K.held kept)) }
{
    match event {
        Event::RowAdded { row } => row_added(kept, at, row, turned, steps),
        Event::RowRemoved { group, member } => row_removed(kept, at, *group, member, turned, steps),
        Event::RowRedated {
            group,
            member,
            from,
            until,
        } => row_redated(kept, at, *group, member, *from, *until, turned, steps),
        Event::Composed { row } => {
            let change = Change::FactorsOn {
                group: row.group,
                op: row.op,
                left: row.left,
                right: row.right,
            };
            compose(kept, &change, turned, steps)
        }
        Event::Decomposed { group } => {
            compose(kept, &Change::FactorsOff { group: *group }, turned, steps)
        }
        _ => Ok(kept),
    }
}
