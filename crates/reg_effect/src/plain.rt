// Effective memberships computed afresh after each change, straight from their definition.
ghost use Rattle.std.specs.Prelude.{◌≡◌, ◌==◌, ◌&&◌, ◌||◌, ◌+◌, ◌≤◌, ℕ, IfOk, OnOk};
ghost use Rattle.std.specs.List.Sorted.{IsStrictlySortedBy};
ghost use Rattle.std.specs.Ordering.{nat_cmp};
ghost use Rattle.reg_graph.specs.Sets.{holds};
ghost use Rattle.reg_graph.specs.Edges.{among, IsAcyclic};
ghost use Rattle.reg_effect.specs.Member.{member, combine, gives, in_rows, in_factors, level};
ghost use Rattle.reg_effect.specs.Edges.{edges};
ghost use Rattle.reg_effect.specs.Asked.{IsWell};
ghost use Rattle.reg_effect.specs.Changes.{changed, nothing, Suits};
ghost use Rattle.reg_effect.specs.Deltas.{members_of, began, ended};
ghost use Rattle.reg_effect.specs.Bound.{most_steps};

use crate::combine::combine;
use crate::marks::Marks;
use crate::named::{having, named};
use crate::{Change, Delta, Kept, Live};
use reg_base::{GroupId, Steps, SubjectId};
use reg_terms::{CompositeRow, Member};
use std::alloc::{AllocError, Global};
use std::marker::Model;
use std::sync::ledger::Ledger;

/// The plain program of the definition: a table of all effective memberships, computed from the
/// live data in rounds, each a level deeper, until a round changes nothing.
#[derive(Drop)]
pub struct Plain {
    alloc: Global,
    live: Live,
    table: Marks,
}

impl Model for Plain {
    ghost use Rattle.reg_effect.specs.declared.live.Live.{Live};
    ghost use Rattle.reg_effect.specs.Invariant.{IsTable};

    ghost Value = { Live };

    ghost view = { λ p. p.live };

    ghost invariant = { λ p. IsTable p.live p.table };
}

/// Adds persons to a group.
fn fill(next: &mut Marks, g: GroupId, persons: &[SubjectId]) -> Result<(), AllocError>
    ensures { OnOk result ((y q : ℕ) → holds y q next.new
        ≡ (((y == g) && among q persons.now) || holds y q next.old)) }
{
    for person in persons {
        next.add(g, *person)?;
    }
    Ok(())
}

/// Adds whom a row gives, by the table of the level below.
#[tactic(auto, using(crate::proofs::Rounds::person_given, crate::proofs::Rounds::group_given))]
fn add_row(table: &Marks, g: GroupId, member: Member, next: &mut Marks) -> Result<(), AllocError>
    ensures { OnOk result ((y q : ℕ) → holds y q next.new
        ≡ (((g == y) && gives (λ h. holds h q table.now) q member) || holds y q next.old)) }
{
    match member {
        Member::Person(person) => next.add(g, person),
        Member::Group(nested) => {
            let persons = table.subjects(nested)?;
            fill(next, g, persons.as_slice())
        }
    }
}

/// Adds a person to a composite, where its factors give the person.
#[tactic(auto, using(crate::proofs::Rounds::factor_added, crate::proofs::Rounds::factor_left))]
fn add_factor(
    table: &Marks,
    c: &CompositeRow,
    person: SubjectId,
    next: &mut Marks,
) -> Result<(), AllocError>
    ensures { OnOk result ((y q : ℕ) → holds y q next.new
        ≡ ((((y == c.now.group) && (q == person)) && combine c.now.op
        (holds c.now.left person table.now) (holds c.now.right person table.now))
        || holds y q next.old)) }
{
    let left = table.has(c.left, person);
    let right = table.has(c.right, person);
    if combine(c.op, left, right) {
        next.add(c.group, person)?;
    }
    Ok(())
}

/// Adds those of the persons whom the factors of a composite give.
fn add_given(
    table: &Marks,
    c: &CompositeRow,
    persons: &[SubjectId],
    next: &mut Marks,
) -> Result<(), AllocError>
    ensures { OnOk result ((y q : ℕ) → holds y q next.new
        ≡ (((y == c.now.group) && (among q persons.now && combine c.now.op
        (holds c.now.left q table.now) (holds c.now.right q table.now)))
        || holds y q next.old)) }
{
    for person in persons {
        add_factor(table, c, *person, next)?;
    }
    Ok(())
}

/// Adds whom the factors of a composite give, by the table of the level below: all of them are in
/// one of the factors at least.
#[tactic(auto, using(crate::proofs::Rounds::factors_given))]
fn add_composite(table: &Marks, c: &CompositeRow, next: &mut Marks) -> Result<(), AllocError>
    ensures { OnOk result ((y q : ℕ) → holds y q next.new
        ≡ (((c.now.group == y) && combine c.now.op (holds c.now.left q table.now)
        (holds c.now.right q table.now)) || holds y q next.old)) }
{
    let of_left = table.subjects(c.left)?;
    let of_right = table.subjects(c.right)?;
    add_given(table, c, of_left.as_slice(), next)?;
    add_given(table, c, of_right.as_slice(), next)?;
    Ok(())
}

fn add_rows(table: &Marks, rows: &[(GroupId, Member)], next: &mut Marks) -> Result<(), AllocError>
    ensures { OnOk result ((y q : ℕ) → holds y q next.new
        ≡ (in_rows (λ h. holds h q table.now) rows.now y q || holds y q next.old)) }
{
    for row in rows {
        add_row(table, row.0, row.1, next)?;
    }
    Ok(())
}

fn add_composites(
    table: &Marks,
    composites: &[CompositeRow],
    next: &mut Marks,
) -> Result<(), AllocError>
    ensures { OnOk result ((y q : ℕ) → holds y q next.new
        ≡ (in_factors (λ h. holds h q table.now) composites.now y || holds y q next.old)) }
{
    for c in composites {
        add_composite(table, c, next)?;
    }
    Ok(())
}

/// The table one level deeper.
#[tactic(auto, using(crate::proofs::Rounds::round_is))]
fn deepen(
    alloc: Global,
    table: &Marks,
    rows: &[(GroupId, Member)],
    composites: &[CompositeRow],
) -> Result<Marks, AllocError>
    ensures { IfOk result (λ next. (y q : ℕ) → holds y q next
        ≡ (in_factors (λ h. holds h q table.now) composites.now y
        || in_rows (λ h. holds h q table.now) rows.now y q)) }
{
    let mut next = Marks::new(alloc);
    add_rows(table, rows, &mut next)?;
    add_composites(table, composites, &mut next)?;
    Ok(next)
}

/// All effective memberships.
fn memberships(alloc: Global, live: &Live) -> Result<Marks, AllocError>
    requires { IsWell live.now }
    ensures { IfOk result (λ table. (y q : ℕ) → holds y q table ≡ member live.now y q) }
{
    let rows = live.rows.list()?;
    let composites = live.composites.list()?;
    let rounds = rows.len() + composites.len() + 1;
    let mut table = Marks::new(alloc);
    for depth in 0..rounds {
        let next = deepen(alloc, &table, rows.as_slice(), composites.as_slice())?;
        if next.same(&table) {
            return Ok(next);
        }
        table = next;
    }
    Ok(table)
}

impl Kept for Plain {
    ghost held = { λ p. p };

    fn start(alloc: Global) -> Result<Self, AllocError> {
        Ok(Plain {
            alloc,
            live: Live::new(alloc),
            table: Marks::new(alloc),
        })
    }

    fn live(&self) -> &Live {
        &self.live
    }

    fn is_member(&self, g: GroupId, s: SubjectId) -> bool {
        self.table.has(g, s)
    }

    fn members(&self, g: GroupId) -> Result<Vec<SubjectId>, AllocError> {
        let subjects = self.table.subjects(g)?;
        Ok(subjects)
    }

    fn groups_of(&self, s: SubjectId) -> Result<Vec<GroupId>, AllocError> {
        let groups = named(self.alloc, &self.live)?;
        let found = having(self.alloc, &self.table, &groups, s)?;
        Ok(found)
    }

    fn change<L: Ledger>(
        self,
        change: &Change,
        steps: &mut Steps<L>,
    ) -> Result<(Self, Delta), AllocError>
        requires { Suits change.now self }
        ensures live { IfOk result (λ r. r.0 ≡ changed change.now self) }
        ensures began { IfOk result (λ r. r.1.began ≡ began self (changed change.now self)) }
        ensures ended { IfOk result (λ r. r.1.ended ≡ ended self (changed change.now self)) }
        ensures cost { OnOk result (steps.new ≤ steps.old + most_steps change.now self) }
        ensures no_step { steps.new ≡ steps.old }
    {
        let _steps = steps;
        let Plain { alloc, live, table } = self;
        let mut live = live;
        live.edit(change)?;
        let next = memberships(alloc, &live)?;
        let began = next.beyond(&table)?;
        let ended = table.beyond(&next)?;
        Ok((
            Plain {
                alloc,
                live,
                table: next,
            },
            Delta { began, ended },
        ))
    }
}
