// Statements on groups, and which groups they name.
ghost use Rattle.std.specs.Prelude.{◌≡◌, ◌++◌, List, filter, IfOk, OnOk};
ghost use Rattle.reg_terms.specs.declared.rows.MemberRow.{MemberRow};
ghost use Rattle.reg_reasons.specs.Reasons.{is_end, leads};
ghost use Rattle.reg_reasons.specs.Counts.{AreAll};
ghost use Rattle.reg_reasons.specs.Stated.{AreGrounds, IsRight, end_of, ends_of, named_by};

use crate::counting::total;
use crate::counts::Counts;
use crate::listing::first_ways;
use crate::{Grounds, Statement, Way};
use reg_base::{GroupId, SubjectId};
use reg_effect::Kept;
use reg_terms::{Member, MemberRow};
use std::alloc::{AllocError, Global};

/// What a statement on a group rests on, by the rows that lead to the person.
fn ground<K: Kept>(
    alloc: Global,
    kept: &K,
    rows: &[MemberRow],
    levels: &[Counts],
    person: SubjectId,
    group: GroupId,
    most: usize,
) -> Result<Grounds, AllocError>
    requires { AreAll rows.now (is_end (K.held kept.now) person) person levels.now }
    ensures { IfOk result (λ grounds. (all : List MemberRow)
        → rows.now ≡ filter (leads (K.held kept.now) person) all
        → AreGrounds (K.held kept.now) all person most group grounds) }
{
    if let Some(composite) = kept.live().composite(group) {
        return Ok(Grounds::Factors {
            op: composite.op,
            left: composite.left,
            right: composite.right,
        });
    }
    let number = total(levels, group);
    let ways = first_ways(alloc, rows, levels, person, group, most)?;
    Ok(Grounds::Rows { number, ways })
}

/// A statement on a group, by the rows that lead to the person.
pub(crate) fn state<K: Kept>(
    alloc: Global,
    kept: &K,
    rows: &[MemberRow],
    levels: &[Counts],
    person: SubjectId,
    group: GroupId,
    most: usize,
) -> Result<Statement, AllocError>
    requires { AreAll rows.now (is_end (K.held kept.now) person) person levels.now }
    ensures group { IfOk result (λ statement. statement.group ≡ group) }
    ensures right { IfOk result (λ statement. (all : List MemberRow)
        → rows.now ≡ filter (leads (K.held kept.now) person) all
        → IsRight (K.held kept.now) all person most statement) }
{
    let grounds = ground(alloc, kept, rows, levels, person, group, most)?;
    Ok(Statement {
        group,
        has: kept.is_member(group, person),
        grounds,
    })
}

/// Adds the group at which a way ends, where that isn't the person.
fn name_end(named: &mut Vec<GroupId>, way: &Way) -> Result<(), AllocError>
    ensures { OnOk result (named.new.items ≡ named.old.items ++ end_of way.now) }
{
    if let Some(row) = way.rows().last() {
        if let Member::Group(group) = row.member {
            named.push(group)?;
        }
    }
    Ok(())
}

/// Adds the groups at which ways end.
fn name_ends(named: &mut Vec<GroupId>, ways: &[Way]) -> Result<(), AllocError>
    ensures { OnOk result (named.new.items ≡ named.old.items ++ ends_of ways.now) }
{
    for way in ways {
        name_end(named, way)?;
    }
    Ok(())
}

/// The groups that grounds name: the factors, or where the ways end.
pub(crate) fn named_by(alloc: Global, grounds: &Grounds) -> Result<Vec<GroupId>, AllocError>
    ensures { IfOk result (λ named. named.items ≡ named_by grounds.now) }
{
    let mut named = Vec::new(alloc);
    match grounds {
        Grounds::Rows { ways, .. } => name_ends(&mut named, ways)?,
        Grounds::Factors { left, right, .. } => {
            named.push(*left)?;
            named.push(*right)?;
        }
    }
    Ok(named)
}
