// The rows that lead to a person.
ghost use Rattle.std.specs.Prelude.{◌≡◌, ◌&&◌, filter, nat_le, IfOk};
ghost use Rattle.reg_effect.specs.Member.{gives, member};
ghost use Rattle.reg_reasons.specs.Ways.{begun};
ghost use Rattle.reg_reasons.specs.Reasons.{having, is_end, leads};

use reg_base::{GroupId, Moment, SubjectId};
use reg_effect::Kept;
use reg_terms::{Member, MemberRow};
use std::alloc::{AllocError, Global};

/// Whether the group is a composite that has the person.
pub(crate) fn is_end<K: Kept>(kept: &K, person: SubjectId, group: GroupId) -> bool
    ensures { result ≡ is_end (K.held kept.now) person group }
{
    kept.live().is_composite(group) && kept.is_member(group, person)
}

/// Whether a row's member is the person, or a group that has it.
fn gives<K: Kept>(kept: &K, person: SubjectId, member: &Member) -> bool
    ensures { result ≡ gives (having (K.held kept.now) person) person member.now }
{
    match member {
        Member::Person(other) => *other == person,
        Member::Group(group) => kept.is_member(*group, person),
    }
}

/// Whether a row leads to the person.
fn leads<K: Kept>(kept: &K, person: SubjectId, row: &MemberRow) -> bool
    ensures { result ≡ leads (K.held kept.now) person row.now }
{
    gives(kept, person, &row.member) && !kept.live().is_composite(row.group)
}

/// Whether a row has begun and leads to the person.
fn is_leading<K: Kept>(kept: &K, at: Moment, person: SubjectId, row: &MemberRow) -> bool
    ensures { result ≡ (nat_le row.now.from at && leads (K.held kept.now) person row.now) }
{
    row.from <= at && leads(kept, person, row)
}

/// Those of the rows that have begun and lead to the person.
pub(crate) fn leading<K: Kept>(
    alloc: Global,
    kept: &K,
    rows: &[MemberRow],
    at: Moment,
    person: SubjectId,
) -> Result<Vec<MemberRow>, AllocError>
    ensures { IfOk result (λ found. found.items
        ≡ filter (leads (K.held kept.now) person) (begun at rows.now)) }
{
    let mut found = Vec::new(alloc);
    for row in rows {
        if is_leading(kept, at, person, row) {
            found.push(*row)?;
        }
    }
    Ok(found)
}
