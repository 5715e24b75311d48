// The turns of a batch by what is known of groups.
ghost use Rattle.std.specs.Prelude.{◌≡◌, ◌≤◌, ◌==◌, ℕ, true, false, None, IfOk, OnOk};
ghost use Rattle.std.specs.List.{prefix_len};
ghost use Rattle.std.specs.List.Sorted.{IsNonDecreasing};
ghost use Rattle.reg_prov.specs.Boundaries.{is_boundary};
ghost use Rattle.reg_prov.specs.Pasts.{AreByGroup, want_in};
ghost use Rattle.reg_prov.specs.Spans.{ByPerson, spans_in, wished};
ghost use Rattle.reg_prov.specs.Steps.{AreChained, change_at};
ghost use Rattle.reg_prov.specs.Turns.{AreTurns, turn_at, wanted_at};

use crate::boundary::{Boundary, boundaries_of};
use crate::noting::{Pair, note_pair};
use crate::spans::{Span, spans_of};
use crate::turn::Turn;
use crate::turns::Turns;
use reg_base::{GroupId, Moment, SubjectId};
use std::alloc::{AllocError, Global};

/// A person's membership from a moment until just before another one, or without an end.
pub type Row = (SubjectId, Moment, Option<Moment>);

/// What is known of a group: the intervals in which it was granted, and those in which persons were
/// members, person by person.
#[derive(Drop)]
pub struct GroupPast {
    pub group: GroupId,
    pub grants: Vec<(Moment, Option<Moment>)>,
    pub members: Vec<(SubjectId, Moment, Option<Moment>)>,
}

/// How many rows at the front are a person's.
fn front_of(rows: &[Row], person: SubjectId) -> usize
    ensures { result ≡ prefix_len (λ row. row.0 == person) rows.now }
{
    rows.iter()
        .take_while(|row| row.0.number() == person.number())
        .count()
}

/// Notes all turns of a group, of which none was noted.
fn note_group(
    alloc: Global,
    turns: &mut Turns,
    boundaries: &[Boundary],
    group: GroupId,
    grants: &[Span],
    rows: &[Row],
) -> Result<(), AllocError>
    requires chained { AreChained boundaries.now }
    requires ordered { ByPerson rows.now }
    requires new { (n s : ℕ) → turn_at turns.old n group s ≡ None }
    ensures noted { OnOk result ((n s : ℕ) → turn_at turns.new n group s
        ≡ change_at (wished grants.now (spans_in s rows.now)) boundaries.now n) }
    ensures others { OnOk result ((n g s : ℕ) → (group == g) ≡ false
        → turn_at turns.new n g s ≡ turn_at turns.old n g s) }
{
    let mut rest = rows;
    while let Some(row) = rest.first() {
        let subject = row.0;
        let (front, later) = rest.split_at(front_of(rest, subject));
        let members = spans_of(alloc, front)?;
        let pair = Pair { group, subject };
        note_pair(turns, boundaries, &pair, grants, &members)?;
        rest = later;
    }
    Ok(())
}

/// Notes all turns of some groups.
fn note_groups(
    alloc: Global,
    boundaries: &[Boundary],
    pasts: &[GroupPast],
) -> Result<Turns, AllocError>
    requires chained { AreChained boundaries.now }
    requires ordered { AreByGroup pasts.now }
    ensures { IfOk result (λ turns. (n g s : ℕ) → turn_at turns n g s
        ≡ change_at (λ t. want_in pasts.now t g s) boundaries.now n) }
{
    let mut turns = Turns::new(alloc);
    for past in pasts {
        note_group(
            alloc,
            &mut turns,
            boundaries,
            past.group,
            &past.grants,
            &past.members,
        )?;
    }
    Ok(turns)
}

/// The turns of a batch behind a start, which is a boundary, and up to a last number, in the log
/// whose entries have these moments, by what is known of the groups. Costs the entries in between,
/// and for each limit of an interval a binary search and a look at all intervals of its pair. The
/// only error is out of memory.
pub fn turns_of(
    alloc: Global,
    moments: &[Moment],
    start: u64,
    last: u64,
    pasts: &[GroupPast],
) -> Result<Vec<Turn>, AllocError>
    requires begins { is_boundary moments.now start ≡ true }
    requires inside { start ≤ last }
    requires rise { IsNonDecreasing moments.now }
    requires ordered { AreByGroup pasts.now }
    ensures { IfOk result (λ turns. AreTurns (wanted_at (want_in pasts.now) moments.now) moments.now
        start last turns.items) }
{
    let boundaries = boundaries_of(alloc, moments, start, last)?;
    let turns = note_groups(alloc, &boundaries, pasts)?;
    turns.list()
}
