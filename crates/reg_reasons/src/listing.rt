// The ways themselves, one after another.
ghost use Rattle.std.specs.Prelude.{◌≡◌, ◌<◌, ◌≤◌, ◌++◌, ℕ, List, Bool, length, take, IfOk, OnOk};
ghost use Rattle.std.specs.Prelude.{IfSome, slice_get};
ghost use Rattle.reg_reasons.specs.Ways.{Way, by_rows, shorter, ways};
ghost use Rattle.reg_reasons.specs.Counts.{AreLevels, AreOf};
ghost use Rattle.reg_reasons.specs.Picks.{MayPick};

use crate::Way;
use crate::counting::count_onward;
use crate::counts::Counts;
use reg_base::{GroupId, SubjectId};
use reg_terms::{Member, MemberRow};
use std::alloc::{AllocError, Global};

/// The first row of the k-th way from a group, by its place, and which of the ways on from its
/// member that is. None where there is no k-th way.
fn pick(
    rows: &[MemberRow],
    below: &Counts,
    last: bool,
    person: SubjectId,
    group: GroupId,
    k: u64,
) -> Option<(usize, u64)>
    requires { k < 18446744073709551615 }
    ensures place { IfSome result (λ pick. (pick.0 < length rows.now) × (pick.1 ≤ k)) }
    ensures way { (W : ℕ → List Way) → AreOf W below.now
        → MayPick W last person rows.now (by_rows W last person rows.now group) k result }
{
    let mut left = k;
    for place in 0..rows.len() {
        let row = &rows[place];
        if row.group == group {
            let count = count_onward(below, last, person, &row.member);
            if left < count {
                return Some((place, left));
            }
            left -= count;
        }
    }
    None
}

/// The k-th way of n rows from a group.
fn way_at(
    alloc: Global,
    rows: &[MemberRow],
    levels: &[Counts],
    person: SubjectId,
    group: GroupId,
    n: usize,
    k: u64,
) -> Result<Option<Way>, AllocError>
    requires n { n < length levels.now }
    requires k { k < 18446744073709551615 }
    ensures { IfOk result (λ found. (ends : ℕ → Bool)
        → AreLevels (λ n g. ways n rows.now ends person g) levels.now
        → found ≡ slice_get (ways n rows.now ends person group) k) }
{
    let mut way = Vec::new(alloc);
    let mut member = Member::Group(group);
    let mut rest = k;
    for step in 0..n {
        let left = n - 1 - step;
        let Member::Group(here) = member else {
            return Ok(None);
        };
        let Some((place, next)) = pick(rows, &levels[left], left == 0, person, here, rest) else {
            return Ok(None);
        };
        let row = &rows[place];
        way.push(*row)?;
        member = row.member;
        rest = next;
    }
    if rest < count_onward(&levels[0], true, person, &member) {
        return Ok(Some(Way::new(way)));
    }
    Ok(None)
}

/// Adds the ways of n rows from a group, as long as there are fewer than `most`.
fn add_ways(
    alloc: Global,
    rows: &[MemberRow],
    levels: &[Counts],
    person: SubjectId,
    group: GroupId,
    n: usize,
    most: usize,
    listed: &mut Vec<Way>,
) -> Result<(), AllocError>
    requires n { n < length levels.now }
    requires room { length listed.old.items ≤ most }
    ensures few { OnOk result (length listed.new.items ≤ most) }
    ensures ways { OnOk result ((ends : ℕ → Bool)
        → AreLevels (λ n g. ways n rows.now ends person g) levels.now
        → listed.new.items
        ≡ take most (listed.old.items ++ ways n rows.now ends person group)) }
{
    let room = most - listed.len();
    for k in 0..room {
        let found = way_at(alloc, rows, levels, person, group, n, k as u64)?;
        let Some(way) = found else {
            return Ok(());
        };
        listed.push(way)?;
    }
    Ok(())
}

/// The first ways from a group, the shortest first.
pub(crate) fn first_ways(
    alloc: Global,
    rows: &[MemberRow],
    levels: &[Counts],
    person: SubjectId,
    group: GroupId,
    most: usize,
) -> Result<Vec<Way>, AllocError>
    ensures { IfOk result (λ listed. (ends : ℕ → Bool)
        → AreLevels (λ n g. ways n rows.now ends person g) levels.now
        → listed.items ≡ take most (shorter (length levels.now)
        (λ n. ways n rows.now ends person group))) }
{
    let mut listed = Vec::new(alloc);
    for n in 0..levels.len() {
        add_ways(alloc, rows, levels, person, group, n, most, &mut listed)?;
    }
    Ok(listed)
}
