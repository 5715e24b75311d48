// The keys by which tables find rows, and the groups that keys name.
ghost use Rattle.reg_terms.specs.Kinds.{member_group, holder_group};
ghost use Rattle.reg_terms.specs.Privileges.{code};
ghost use Rattle.reg_terms.specs.Rules.{key_of, other_of};
ghost use Rattle.reg_terms.specs.Links.{members_alike, behind_one};

use crate::{
    CompositeRow, GrantRow, Holder, InheritKind, InheritRow, Member, MemberRow, Object, RuleKey,
    RuleRow, Scope, privilege_code,
};
use reg_base::{FolderId, GroupId, RuleId};
use reg_table::{LinkedRow, Row};

/// A membership is found by its group and member, and a group's are listed by member: persons by
/// id, then groups by id.
impl Row for MemberRow {
    type Group = GroupId;

    type Place = Member;

    ghost group_of = { λ row. row.group };

    ghost place_of = { λ row. row.member };

    fn group(&self) -> GroupId {
        self.group
    }

    fn place(&self) -> Member {
        self.member
    }
}

/// A membership may name a group as its member.
impl LinkedRow for MemberRow {
    type Link = GroupId;

    ghost link_at = { λ _ member. member_group member };

    ghost link_alike = { λ g h p q group_is place_is. members_alike p q place_is };

    fn link(_group: GroupId, member: Member) -> Option<GroupId> {
        member.group()
    }
}

/// A composite is found by its group, which has one at most.
impl Row for CompositeRow {
    type Group = GroupId;

    type Place = ();

    ghost group_of = { λ row. row.group };

    ghost place_of = { λ _. tt };

    fn group(&self) -> GroupId {
        self.group
    }

    fn place(&self) {}
}

/// A grant is found by its object, the privilege's code and its holder, and an object's are listed
/// by the code, then everyone, persons by id, groups by id.
impl Row for GrantRow {
    type Group = Object;

    type Place = (u8, Holder);

    ghost group_of = { λ row. row.object };

    ghost place_of = { λ row. (code row.privilege, row.holder) };

    fn group(&self) -> Object {
        self.object
    }

    fn place(&self) -> (u8, Holder) {
        (privilege_code(self.privilege), self.holder)
    }
}

/// A grant may name a group as its holder.
impl LinkedRow for GrantRow {
    type Link = GroupId;

    ghost link_at = { λ _ place. holder_group place.1 };

    ghost link_alike = { λ g h p q group_is place_is. behind_one _ p.1 q.1 place_is };

    fn link(_object: Object, place: (u8, Holder)) -> Option<GroupId> {
        place.1.group()
    }
}

/// An inherit is found by its folder and all that it says, and a folder's are listed by the kind of
/// objects, the scope, and then as grants are.
impl Row for InheritRow {
    type Group = FolderId;

    type Place = (InheritKind, Scope, u8, Holder);

    ghost group_of = { λ row. row.folder };

    ghost place_of = { λ row. (row.kind, row.scope, code row.privilege, row.holder) };

    fn group(&self) -> FolderId {
        self.folder
    }

    fn place(&self) -> (InheritKind, Scope, u8, Holder) {
        let code = privilege_code(self.privilege);
        (self.kind, self.scope, code, self.holder)
    }
}

/// An inherit may name a group as its holder.
impl LinkedRow for InheritRow {
    type Link = GroupId;

    ghost link_at = { λ _ place. holder_group place.3 };

    ghost link_alike = { λ g h p q group_is place_is. behind_one _ p.3 q.3 place_is };

    fn link(_folder: FolderId, place: (InheritKind, Scope, u8, Holder)) -> Option<GroupId> {
        place.3.group()
    }
}

/// A rule is found by what it watches, its id, and of whom it speaks beside that; the rules that
/// watch one thing are listed by id.
impl Row for RuleRow {
    type Group = RuleKey;

    type Place = (RuleId, Holder);

    ghost group_of = { λ row. key_of row.form };

    ghost place_of = { λ row. (row.id, other_of row.form) };

    fn group(&self) -> RuleKey {
        self.form.key()
    }

    fn place(&self) -> (RuleId, Holder) {
        (self.id, self.form.other())
    }
}

/// A rule may name a group beside what it watches.
impl LinkedRow for RuleRow {
    type Link = GroupId;

    ghost link_at = { λ _ place. holder_group place.1 };

    ghost link_alike = { λ g h p q group_is place_is. behind_one _ p.1 q.1 place_is };

    fn link(_key: RuleKey, place: (RuleId, Holder)) -> Option<GroupId> {
        place.1.group()
    }
}
