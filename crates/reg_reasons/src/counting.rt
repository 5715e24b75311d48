// How many ways lead to a person, by their length.
ghost use Rattle.std.specs.Prelude.{◌≡◌, ◌<◌, ℕ, List, length, IfOk};
ghost use Rattle.std.specs.Prelude.{if◌then◌else◌};
ghost use Rattle.reg_reasons.specs.Ways.{Way, by_rows, onward, shorter, ways};
ghost use Rattle.reg_reasons.specs.Reasons.{is_end};
ghost use Rattle.reg_reasons.specs.Counts.{AreAll, AreLevels, AreOf, capped, count_of};

use crate::counts::Counts;
use crate::leading::is_end;
use reg_base::{GroupId, SubjectId};
use reg_effect::Kept;
use reg_terms::{Member, MemberRow};
use std::alloc::{AllocError, Global};

/// The ways of no row: one from each composite that has the person.
#[tactic(auto, using(crate::proofs::Ends::left_first, crate::proofs::Ends::left_none))]
fn count_ends<K: Kept>(alloc: Global, kept: &K, person: SubjectId) -> Result<Counts, AllocError>
    ensures { IfOk result (λ counts. (g : ℕ) → count_of counts g
        ≡ (if is_end (K.held kept.now) person g then 1 else 0)) }
{
    let composites = kept.live().composites.list()?;
    let mut counts = Counts::new(alloc);
    for composite in &composites {
        if is_end(kept, person, composite.group) {
            counts.set(composite.group, 1)?;
        }
    }
    Ok(counts)
}

/// How many ways lead on from a row's member, by the counts for nested groups.
pub(crate) fn count_onward(below: &Counts, last: bool, person: SubjectId, member: &Member) -> u64
    ensures { (W : ℕ → List Way) → AreOf W below.now
        → result ≡ capped (length (onward W last person member.now)) }
{
    match member {
        Member::Person(other) => u64::from(last && *other == person),
        Member::Group(group) => below.of(*group),
    }
}

/// The ways of one row more than those counted below.
fn count_rows(
    alloc: Global,
    rows: &[MemberRow],
    person: SubjectId,
    below: &Counts,
    last: bool,
) -> Result<Counts, AllocError>
    ensures { IfOk result (λ counts. (W : ℕ → List Way) → AreOf W below.now
        → AreOf (by_rows W last person rows.now) counts) }
{
    let mut counts = Counts::new(alloc);
    for row in rows {
        let more = count_onward(below, last, person, &row.member);
        counts.add(row.group, more)?;
    }
    Ok(counts)
}

/// The ways to a person by these rows, level by level: those of no row, of one, and so on until
/// there are none.
pub(crate) fn count_ways<K: Kept>(
    alloc: Global,
    kept: &K,
    rows: &[MemberRow],
    person: SubjectId,
) -> Result<Vec<Counts>, AllocError>
    ensures { IfOk result (λ levels.
        AreAll rows.now (is_end (K.held kept.now) person) person levels.items) }
{
    let mut levels = Vec::new(alloc);
    levels.push(count_ends(alloc, kept, person)?)?;
    for n in 0..rows.len() {
        let counts = count_rows(alloc, rows, person, &levels[n], n == 0)?;
        if counts.are_none() {
            return Ok(levels);
        }
        levels.push(counts)?;
    }
    Ok(levels)
}

/// How many ways there are from a group, by the counts of each level.
pub(crate) fn total(levels: &[Counts], group: GroupId) -> u64
    ensures { (W : ℕ → ℕ → List Way) → AreLevels W levels.now
        → result ≡ capped (length (shorter (length levels.now) (λ n. W n group))) }
{
    let mut total = 0;
    for counts in levels {
        total = counts.of(group).saturating_add(total);
    }
    total
}
