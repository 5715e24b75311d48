// Which pairs turn at which boundaries: a pair can turn only at the first boundary from an end of
// an interval on, and at the first boundary of all.
ghost use Rattle.std.specs.Prelude.{◌≡◌, ◌||◌, ℕ, Bool, None, OnOk};
ghost use Rattle.reg_prov.specs.Notes.{AreNoted, OthersStay, reaches, reached};
ghost use Rattle.reg_prov.specs.Spans.{limits, limits_of, wished};
ghost use Rattle.reg_prov.specs.Steps.{AreChained, change_at};
ghost use Rattle.reg_prov.specs.Turns.{turn_at};

use crate::boundary::{Boundary, first_from};
use crate::spans::{Span, change_in};
use crate::turns::Turns;
use reg_base::{GroupId, Moment, SubjectId};
use std::alloc::AllocError;

/// A group and a person.
#[derive(Clone, Copy)]
pub struct Pair {
    pub group: GroupId,
    pub subject: SubjectId,
}

/// Notes what becomes of a pair at the first boundary from a moment on.
fn note_moment(
    turns: &mut Turns,
    boundaries: &[Boundary],
    pair: &Pair,
    grants: &[Span],
    members: &[Span],
    moment: Moment,
) -> Result<(), AllocError>
    requires { AreChained boundaries.now }
    ensures noted { OnOk result ((test : ℕ → Bool)
        → AreNoted (wished grants.now members.now) boundaries.now pair.now.group pair.now.subject
        test turns.old
        → AreNoted (wished grants.now members.now) boundaries.now pair.now.group pair.now.subject
        (λ n. test n || reaches boundaries.now n moment) turns.new) }
    ensures others { OnOk result (OthersStay pair.now.group pair.now.subject turns.old turns.new) }
{
    let Some(boundary) = first_from(boundaries, moment) else {
        return Ok(());
    };
    match change_in(boundary, grants, members) {
        Some(on) => turns.set(boundary.number, pair.group, pair.subject, on),
        None => Ok(()),
    }
}

/// Notes what becomes of a pair at the first boundaries from the limits of an interval on.
fn note_span(
    turns: &mut Turns,
    boundaries: &[Boundary],
    pair: &Pair,
    grants: &[Span],
    members: &[Span],
    span: &Span,
) -> Result<(), AllocError>
    requires { AreChained boundaries.now }
    ensures noted { OnOk result ((test : ℕ → Bool)
        → AreNoted (wished grants.now members.now) boundaries.now pair.now.group pair.now.subject
        test turns.old
        → AreNoted (wished grants.now members.now) boundaries.now pair.now.group pair.now.subject
        (λ n. test n || reached boundaries.now n (limits span.now)) turns.new) }
    ensures others { OnOk result (OthersStay pair.now.group pair.now.subject turns.old turns.new) }
{
    note_moment(turns, boundaries, pair, grants, members, span.0)?;
    match span.1 {
        Some(end) => note_moment(turns, boundaries, pair, grants, members, end),
        None => Ok(()),
    }
}

/// Notes what becomes of a pair at the first boundaries from the limits of some intervals on.
fn note_spans(
    turns: &mut Turns,
    boundaries: &[Boundary],
    pair: &Pair,
    grants: &[Span],
    members: &[Span],
    spans: &[Span],
) -> Result<(), AllocError>
    requires { AreChained boundaries.now }
    ensures noted { OnOk result ((test : ℕ → Bool)
        → AreNoted (wished grants.now members.now) boundaries.now pair.now.group pair.now.subject
        test turns.old
        → AreNoted (wished grants.now members.now) boundaries.now pair.now.group pair.now.subject
        (λ n. test n || reached boundaries.now n (limits_of spans.now)) turns.new) }
    ensures others { OnOk result (OthersStay pair.now.group pair.now.subject turns.old turns.new) }
{
    for span in spans {
        note_span(turns, boundaries, pair, grants, members, span)?;
    }
    Ok(())
}

/// Notes all turns of a pair, of which none was noted, by the intervals in which its group was
/// granted and its person was a member. Costs for each limit of an interval a binary search and a
/// look at all intervals of the pair.
pub fn note_pair(
    turns: &mut Turns,
    boundaries: &[Boundary],
    pair: &Pair,
    grants: &[Span],
    members: &[Span],
) -> Result<(), AllocError>
    requires chained { AreChained boundaries.now }
    requires new { (n : ℕ) → turn_at turns.old n pair.now.group pair.now.subject ≡ None }
    ensures noted { OnOk result ((n : ℕ) → turn_at turns.new n pair.now.group pair.now.subject
        ≡ change_at (wished grants.now members.now) boundaries.now n) }
    ensures others { OnOk result (OthersStay pair.now.group pair.now.subject turns.old turns.new) }
{
    note_moment(turns, boundaries, pair, grants, members, Moment::start())?;
    note_spans(turns, boundaries, pair, grants, members, grants)?;
    note_spans(turns, boundaries, pair, grants, members, members)
}
