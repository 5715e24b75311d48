// Intervals of moments, and what becomes of a wish at a boundary.
ghost use Rattle.std.specs.Prelude.{◌≡◌, IfOk, map};
ghost use Rattle.reg_pit.specs.Spans.{covers, ends_after, has_moment};
ghost use Rattle.reg_prov.specs.Spans.{wished};
ghost use Rattle.reg_prov.specs.Steps.{change_in};
ghost use Rattle.reg_prov.specs.Turns.{change, held};

use crate::boundary::Boundary;
use reg_base::{Moment, SubjectId};
use std::alloc::{AllocError, Global};

/// From a moment until just before another one, or without an end.
pub type Span = (Moment, Option<Moment>);

/// Whether an end, if there is one, is later than a moment.
fn ends_after(t: Moment, end: Option<Moment>) -> bool
    ensures { result ≡ ends_after t end }
{
    match end {
        None => true,
        Some(end) => t.micros() < end.micros(),
    }
}

/// Whether an interval has a moment.
fn has_moment(t: Moment, span: &Span) -> bool
    ensures { result ≡ has_moment t span.now }
{
    span.0.micros() <= t.micros() && ends_after(t, span.1)
}

/// Whether some interval has a moment.
fn covers(spans: &[Span], t: Moment) -> bool
    ensures { result ≡ covers spans.now t }
{
    spans.iter().any(|span| has_moment(t, span))
}

/// Whether a pair is wanted at a moment, by the intervals of the grant and of the membership.
fn is_wished(grants: &[Span], members: &[Span], t: Moment) -> bool
    ensures { result ≡ wished grants.now members.now t }
{
    covers(grants, t) && covers(members, t)
}

/// Whether a pair was wanted at a boundary before, which has no moment where it is 0.
fn was_wished(grants: &[Span], members: &[Span], t: Option<Moment>) -> bool
    ensures { result ≡ held (wished grants.now members.now) t }
{
    match t {
        None => false,
        Some(t) => is_wished(grants, members, t),
    }
}

/// What becomes of a wish that was so, and is so now.
fn change(was: bool, is: bool) -> Option<bool>
    ensures { result ≡ change was is }
{
    if was == is { None } else { Some(is) }
}

/// What becomes of a pair's wish at a boundary: whether it comes or goes, if it doesn't stay. Costs
/// the intervals.
pub fn change_in(boundary: &Boundary, grants: &[Span], members: &[Span]) -> Option<bool>
    ensures { result ≡ change_in (wished grants.now members.now) boundary.now }
{
    let was = was_wished(grants, members, boundary.before);
    change(was, is_wished(grants, members, boundary.at))
}

/// The intervals of rows.
pub fn spans_of(
    alloc: Global,
    rows: &[(SubjectId, Moment, Option<Moment>)],
) -> Result<Vec<Span>, AllocError>
    ensures { IfOk result (λ spans. spans.items ≡ map (λ row. (row.1, row.2)) rows.now) }
{
    rows.iter().map(|row| (row.1, row.2)).collect(alloc)
}
