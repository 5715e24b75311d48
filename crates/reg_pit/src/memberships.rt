// When each person was an effective member of each group.
ghost use Rattle.std.specs.Prelude.{◌≡◌, ◌≤◌, ◌+◌, ◌*◌, ◌^◌, ◌==◌, ◌&&◌, ℕ, List, [], true, length};
ghost use Rattle.std.specs.Prelude.{map, nat_le, IfOk, OnOk, if◌then◌else◌};
ghost use Rattle.std.specs.List.{list_any};
ghost use Rattle.std.specs.List.Sorted.{IsStrictlySortedBy};
ghost use Rattle.std.specs.Ordering.{nat_cmp};
ghost use Rattle.reg_pit.specs.Spans.{covers, NoLater, AreSpans, looked_at};
ghost use Rattle.reg_pit.specs.Runs.{spans_of};
ghost use Rattle.reg_pit.specs.Members.{pair_cmp, are_on, has_pair, Lists, second_spans};

use crate::Intervals;
use reg_base::{GroupId, Moment, Steps, SubjectId};
use std::alloc::{AllocError, Global};
use std::collections::BTreeSet;
use std::marker::Model;
use std::sync::ledger::Ledger;

/// When each person was an effective member of each group. Contracts see the intervals by group and
/// person.
#[derive(Drop)]
pub(crate) struct Memberships {
    alloc: Global,
    by_group: Intervals<(GroupId, SubjectId)>,
    /// The person and the group of each membership that ever was, so that the groups of a person
    /// are found.
    by_person: BTreeSet<(SubjectId, GroupId)>,
}

impl Model for Memberships {
    ghost use Rattle.std.specs.Prelude.{List, ℕ};
    ghost use Rattle.reg_pit.specs.Members.{AreKnown};

    ghost Value = { List (((ℕ × ℕ) × ℕ) × ℕ) };

    ghost view = { λ m. m.by_group };

    ghost invariant = { λ m. AreKnown m.by_group m.by_person.keys };
}

/// The second of each pair.
fn seconds<A: Copy, B: Copy>(alloc: Global, pairs: &[(A, B)]) -> Result<Vec<B>, AllocError>
    ensures { IfOk result (λ seconds. seconds.items ≡ map (λ pair. pair.1) pairs.now) }
{
    pairs.iter().map(|pair| pair.1).collect(alloc)
}

/// The rows without the first of each pair.
fn without_first<A: Copy, B: Copy>(
    alloc: Global,
    rows: &[((A, B), Moment, Option<Moment>)],
) -> Result<Vec<(B, Moment, Option<Moment>)>, AllocError>
    ensures { IfOk result (λ after. after.items ≡ map (λ row. (row.0.1, row.1, row.2)) rows.now) }
{
    rows.iter()
        .map(|row| (row.0.1, row.1, row.2))
        .collect(alloc)
}

/// Adds a group to those of a person, if a membership begins.
fn know(
    by_person: &mut BTreeSet<(SubjectId, GroupId)>,
    g: GroupId,
    s: SubjectId,
    begins: bool,
) -> Result<(), AllocError>
    ensures known { OnOk result (begins ≡ true → has_pair (s, g) by_person.new.keys ≡ true) }
    ensures others { OnOk result ((k : ℕ × ℕ) → has_pair k by_person.old.keys ≡ true
        → has_pair k by_person.new.keys ≡ true) }
{
    if begins {
        by_person.insert((s, g))?;
    }
    Ok(())
}

impl Memberships {
    /// Nobody was ever a member. Takes no memory.
    pub(crate) fn new(alloc: Global) -> Memberships
        ensures { (k : ℕ × ℕ) → spans_of pair_cmp result k ≡ [] }
    {
        Memberships {
            alloc,
            by_group: Intervals::new(alloc),
            by_person: BTreeSet::new(alloc),
        }
    }

    /// From a moment on a person is a member of a group, or isn't; nothing was noted later.
    pub(crate) fn note(
        self,
        g: GroupId,
        s: SubjectId,
        on: bool,
        at: Moment,
    ) -> Result<Memberships, AllocError>
        requires { (k : ℕ × ℕ) → NoLater at (spans_of pair_cmp self k) }
        ensures noted { IfOk result (λ after. (x y t : ℕ)
            → are_on after x y t ≡ (if ((x == g) && (y == s)) && nat_le at t then on
            else are_on self x y t)) }
        ensures last { IfOk result (λ after. (k : ℕ × ℕ) → NoLater at (spans_of pair_cmp after k)) }
    {
        let Memberships {
            alloc,
            mut by_group,
            mut by_person,
        } = self;
        know(&mut by_person, g, s, on)?;
        by_group.set((g, s), on, at)?;
        Ok(Memberships {
            alloc,
            by_group,
            by_person,
        })
    }

    /// Whether a person was a member of a group at a moment. A step is one interval looked at.
    /// Takes no memory.
    pub(crate) fn at<L: Ledger>(
        &self,
        g: GroupId,
        s: SubjectId,
        t: Moment,
        steps: &mut Steps<L>,
    ) -> bool
        ensures value { result ≡ are_on self.now g s t }
        ensures ticks { steps.new ≡ steps.old + looked_at (spans_of pair_cmp self.now (g, s)) t }
        ensures looks { steps.new ≤ steps.old + 1 }
        ensures cost { (n : ℕ) → steps.new ≡ steps.old + n
            → 2 ^ n ≤ 2 * length (spans_of pair_cmp self.now (g, s)) + 1 }
    {
        self.by_group.at((g, s), t, steps)
    }

    /// The intervals in which a person was a member of a group, in order.
    pub(crate) fn spans(
        &self,
        g: GroupId,
        s: SubjectId,
    ) -> Result<Vec<(Moment, Option<Moment>)>, AllocError>
        ensures value { IfOk result (λ spans. spans.items ≡ spans_of pair_cmp self.now (g, s)) }
        ensures spans { IfOk result (λ spans. AreSpans spans.items) }
    {
        let spans = self.by_group.rows((g, s))?;
        Ok(spans)
    }

    /// All intervals of all persons who were ever members of a group, by person and then start.
    pub(crate) fn history(
        &self,
        g: GroupId,
    ) -> Result<Vec<(SubjectId, Moment, Option<Moment>)>, AllocError>
        ensures { IfOk result (λ rows. (ids : List ℕ) → IsStrictlySortedBy nat_cmp ids
            → ((s t : ℕ) → are_on self.now g s t ≡ true → list_any (λ x. x == s) ids ≡ true)
            → rows.items ≡ second_spans self.now g ids) }
    {
        let first = (g, SubjectId::new(0));
        let last = (g, SubjectId::new(u32::MAX));
        let pairs = self.by_group.rows_between(first, last)?;
        let rows = without_first(self.alloc, &pairs)?;
        Ok(rows)
    }

    /// The intervals of each pair are none empty, and no two touch. It does nothing.
    pub(crate) fn law_spans(&self)
        ensures { (k : ℕ × ℕ) → AreSpans (spans_of pair_cmp self.now k) }
    {
        self.by_group.law_rows_apart();
    }

    /// Who was a member of a group at a moment, by id.
    pub(crate) fn persons(&self, g: GroupId, t: Moment) -> Result<Vec<SubjectId>, AllocError>
        ensures { IfOk result (λ persons. Lists (λ s. are_on self.now g s t) persons.items) }
    {
        let first = (g, SubjectId::new(0));
        let last = (g, SubjectId::new(u32::MAX));
        let pairs = self.by_group.on_between(first, last, t)?;
        let persons = seconds(self.alloc, &pairs)?;
        Ok(persons)
    }

    /// The groups of which a person was a member at a moment, by id.
    pub(crate) fn groups(&self, s: SubjectId, t: Moment) -> Result<Vec<GroupId>, AllocError>
        ensures { IfOk result (λ groups. Lists (λ g. are_on self.now g s t) groups.items) }
    {
        let first = (s, GroupId::new(0));
        let last = (s, GroupId::new(u32::MAX));
        let mut groups = Vec::new(self.alloc);
        for pair in self.by_person.range(first..=last) {
            if self.by_group.is_on((pair.1, s), t) {
                groups.push(pair.1)?;
            }
        }
        Ok(groups)
    }
}
