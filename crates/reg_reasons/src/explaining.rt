// Statements one after another, until each group that is named has one.
ghost use Rattle.std.specs.Prelude.{◌≡◌, IfOk, OnOk};
ghost use Rattle.reg_reasons.specs.Ways.{begun};
ghost use Rattle.reg_reasons.specs.Stated.{IsExplained, with_new};

use crate::Statement;
use crate::counting::count_ways;
use crate::leading::leading;
use crate::stating::{named_by, state};
use reg_base::{GroupId, Moment, SubjectId};
use reg_effect::Kept;
use reg_terms::MemberRow;
use std::alloc::{AllocError, Global};

/// Adds the groups that aren't listed yet.
fn add_new(groups: &mut Vec<GroupId>, named: &[GroupId]) -> Result<(), AllocError>
    ensures { OnOk result (groups.new.items ≡ with_new groups.old.items named.now) }
{
    for group in named {
        if !groups.contains(group) {
            groups.push(*group)?;
        }
    }
    Ok(())
}

/// Why a person is or isn't an effective member of a group, by rows and composites: a statement on
/// the group, and then one on each group that a statement names, each group once. A statement on a
/// composite names its factors; one on another group says how many ways lead to the person, and
/// lists the first of them, `most` at most; these name the composites at which they end. Only the
/// rows that have begun count.
///
/// The only error is out of memory. It goes once through the rows and the composites, and then for
/// each length of a way through the rows that lead to the person, and once more for each row that
/// it lists.
pub fn explain<K: Kept>(
    alloc: Global,
    kept: &K,
    rows: &[MemberRow],
    at: Moment,
    person: SubjectId,
    group: GroupId,
    most: usize,
) -> Result<Vec<Statement>, AllocError>
    ensures { IfOk result (λ statements.
        IsExplained (K.held kept.now) (begun at rows.now) person most group statements.items) }
{
    let rows = leading(alloc, kept, rows, at, person)?;
    let levels = count_ways(alloc, kept, &rows, person)?;
    let mut groups = Vec::new(alloc);
    groups.push(group)?;
    let mut statements = Vec::new(alloc);
    for place in 0..usize::MAX {
        if place >= groups.len() {
            return Ok(statements);
        }
        let next = groups[place];
        let statement = state(alloc, kept, &rows, &levels, person, next, most)?;
        let named = named_by(alloc, &statement.grounds)?;
        add_new(&mut groups, &named)?;
        statements.push(statement)?;
    }
    Ok(statements)
}
