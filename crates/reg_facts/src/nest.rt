// Groups that are members of groups.
ghost use Rattle.std.specs.Prelude.{◌≡◌, ◌++◌, false, OnOk};
ghost use Rattle.reg_facts.specs.Nests.{nest_of, without_nest, has_nest};

use crate::{Member, MemberRow};
use reg_base::GroupId;
use reg_table::{Row, Table};
use std::alloc::AllocError;

/// A group that is a member of another, found by the first.
#[derive(Clone, Copy)]
pub struct Nest {
    pub nested: GroupId,
    pub group: GroupId,
}

impl Row for Nest {
    type Group = GroupId;

    type Place = GroupId;

    ghost group_of = { λ nest. nest.nested };

    ghost place_of = { λ nest. nest.group };

    fn group(&self) -> GroupId {
        self.nested
    }

    fn place(&self) -> GroupId {
        self.group
    }
}

/// Adds a new membership, if its member is a group.
pub fn add_nest(nests: &mut Table<Nest>, row: &MemberRow) -> Result<(), AllocError>
    requires { has_nest row.now.group row.now.member nests.old ≡ false }
    ensures { OnOk result (nests.new ≡ nests.old ++ nest_of row.now) }
{
    match row.member {
        Member::Person(_) => Ok(()),
        Member::Group(nested) => nests.push(Nest {
            nested,
            group: row.group,
        }),
    }
}

/// Takes a membership away, if its member is a group.
pub fn remove_nest(nests: &mut Table<Nest>, group: GroupId, member: &Member)
    ensures { nests.new ≡ without_nest group member.now nests.old }
{
    if let Member::Group(nested) = member {
        nests.remove(*nested, group);
    }
}
