// The immediate memberships as contracts see them.
ghost use Rattle.std.specs.Prelude.{◌≡◌, ◌++◌, ◌∷◌, [], not, false, filter, map, length, IfOk};
ghost use Rattle.std.specs.List.{find};
ghost use Rattle.reg_facts.specs.Edits.{windowed};
ghost use Rattle.reg_terms.specs.Rows.{is_row, has_row, has_rows, is_nested};
ghost use Rattle.reg_facts.specs.RowOrder.{rows_of};
ghost use Rattle.reg_terms.specs.declared.rows.MemberRow.{MemberRow};

use crate::nest::{Nest, add_nest, remove_nest};
use crate::{Member, MemberRow};
use reg_base::{GroupId, Moment};
use reg_table::Table;
use std::alloc::{AllocError, Global};
use std::marker::Model;

/// The immediate memberships. Contracts see the list of them, in the order in which they were
/// added.
#[derive(Drop)]
pub struct MemberRows {
    rows: Table<MemberRow>,
    /// Those whose member is a group, by that group.
    nests: Table<Nest>,
}

impl Model for MemberRows {
    ghost use Rattle.std.specs.Prelude.{◌≡◌, List};
    ghost use Rattle.reg_terms.specs.declared.rows.MemberRow.{MemberRow};
    ghost use Rattle.reg_facts.specs.Nests.{nests_of};

    ghost Value = { List MemberRow };

    ghost view = { λ t. t.rows };

    ghost invariant = { λ t. t.nests ≡ nests_of t.rows };
}

impl MemberRows {
    /// No membership. It takes no memory.
    pub fn new(alloc: Global) -> MemberRows
        ensures { result ≡ [] }
    {
        MemberRows {
            rows: Table::new(alloc),
            nests: Table::new(alloc),
        }
    }

    /// Whether the membership stands. It takes no memory.
    pub fn contains(&self, group: GroupId, member: &Member) -> bool
        ensures { result ≡ has_row group member.now self.now }
    {
        self.rows.contains(group, *member)
    }

    /// Whether a group has a membership. It takes no memory.
    pub fn has_rows(&self, group: GroupId) -> bool
        ensures { result ≡ has_rows group self.now }
    {
        self.rows.has_rows(group)
    }

    /// Whether a group is the member of a membership. It takes no memory.
    pub fn is_nested(&self, group: GroupId) -> bool
        ensures { result ≡ is_nested group self.now }
    {
        self.nests.has_rows(group)
    }

    /// The membership of a member in a group. It takes no memory.
    pub fn get(&self, group: GroupId, member: &Member) -> Option<MemberRow>
        ensures { result ≡ find (is_row group member.now) self.now }
    {
        self.rows.get(group, *member).copied()
    }

    /// The memberships of a group: those of persons by id, then those of groups by id.
    #[tactic(auto, unfolding(crate::specs::RowOrder::rows_of))]
    pub fn rows_of(&self, alloc: Global, group: GroupId) -> Result<Vec<MemberRow>, AllocError>
        ensures { IfOk result (λ found. found.items ≡ rows_of group self.now) }
    {
        let mut found = Vec::new(alloc);
        for row in self.rows.rows_of(group) {
            found.push(*row)?;
        }
        Ok(found)
    }

    /// How many memberships there are.
    pub fn len(&self) -> usize
        ensures { result ≡ length self.now }
    {
        self.rows.len()
    }

    /// The memberships, in the order in which they were added.
    pub fn list(&self, alloc: Global) -> Result<Vec<MemberRow>, AllocError>
        ensures { IfOk result (λ rows. rows.items ≡ self.now) }
    {
        let mut listed = Vec::new(alloc);
        for row in self.rows.rows(alloc)? {
            listed.push(*row)?;
        }
        Ok(listed)
    }

    /// The memberships and one more that doesn't stand, behind the others. Where there is no memory
    /// they are gone.
    pub fn with(self, row: MemberRow) -> Result<MemberRows, AllocError>
        requires { has_row row.group row.member self ≡ false }
        ensures { IfOk result (λ t. t ≡ self ++ row ∷ []) }
    {
        // so that the borrow checker's part is told of the option's module
        let _until = row.until;
        let MemberRows {
            mut rows,
            mut nests,
        } = self;
        add_nest(&mut nests, &row)?;
        rows.push(row)?;
        Ok(MemberRows { rows, nests })
    }

    /// Takes a membership away. It takes no memory.
    pub fn remove(&mut self, group: GroupId, member: &Member)
        ensures { self.new ≡ filter
            (λ (row : MemberRow). not (is_row group member.now row)) self.old }
    {
        remove_nest(&mut self.nests, group, member);
        self.rows.remove(group, *member);
    }

    /// Gives a membership that stands another window. It takes no memory.
    pub fn redate(&mut self, group: GroupId, member: &Member, from: Moment, until: Option<Moment>)
        ensures { self.new ≡ map (windowed from until group member.now) self.old }
    {
        self.rows.replace(MemberRow {
            group,
            member: *member,
            from,
            until,
        });
    }
}
