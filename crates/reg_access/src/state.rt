// The state of a group's attestation at a moment.
ghost use Rattle.std.specs.Prelude.{◌≡◌, ◌-◌, max, unwrap_or};
ghost use Rattle.reg_access.specs.Attested.{cert, ending, notice, state_by, state_of};

use crate::days::Days;
use reg_base::Moment;

/// How long before its end a certification is due to be renewed: 14 days, in microseconds.
const NOTICE: u64 = 14 * 86_400_000_000;

/// A state of attestation.
#[derive(Clone, Copy, PartialEq, Eq)]
pub enum StateKind {
    /// No days are set.
    None,
    /// Days are set, and the group wasn't certified yet.
    Never,
    Attested,
    /// Attested, for 14 days more at most.
    Due,
    Overdue,
}

/// A state of attestation, and when the last certification ends. None and never have no end, and
/// neither has an attested state whose end would be past the greatest moment.
#[derive(Clone, Copy)]
pub struct State {
    pub kind: StateKind,
    pub until: Option<Moment>,
}

fn later(last: Option<Moment>, c: Moment) -> Moment
    ensures { result ≡ max (unwrap_or last 0) c }
{
    match last {
        Some(moment) => moment.later_of(c),
        None => c,
    }
}

/// The last certification by a moment.
#[tactic(auto, using(crate::proofs::Certified::cert_takes, crate::proofs::Certified::cert_passes))]
pub(crate) fn cert(certified: &[Moment], t: Moment) -> Option<Moment>
    ensures { result ≡ cert certified.now t }
{
    let mut last = None;
    for c in certified {
        if c.micros() <= t.micros() {
            last = Some(later(last, *c));
        }
    }
    last
}

/// When a certification that ends at a moment is due: 14 days before, or at 0.
pub(crate) fn due_of(end: Moment) -> Moment
    ensures { result ≡ end - notice }
{
    match Moment::new(end.micros().saturating_sub(NOTICE)) {
        Some(due) => due,
        None => unreachable!(),
    }
}

/// The state at a moment of a certification that ends at a moment.
fn ending(end: Moment, t: Moment) -> State
    ensures { result ≡ ending end t }
{
    let kind = if end.micros() <= t.micros() {
        StateKind::Overdue
    } else if end.micros() <= t.micros() + NOTICE {
        StateKind::Due
    } else {
        StateKind::Attested
    };
    State {
        kind,
        until: Some(end),
    }
}

/// The state at a moment by the days, if any are set, and the last certification by then, if any.
pub(crate) fn state_of(days: Option<Days>, last: Option<Moment>, t: Moment) -> State
    ensures { result ≡ state_of days last t }
{
    let Some(days) = days else {
        return State {
            kind: StateKind::None,
            until: None,
        };
    };
    let Some(last) = last else {
        return State {
            kind: StateKind::Never,
            until: None,
        };
    };
    match last.plus_days(u32::from(days.number())) {
        Some(end) => ending(end, t),
        None => State {
            kind: StateKind::Attested,
            until: None,
        },
    }
}

/// The state at a moment by the days for which a certification lasts, if any are set, and the
/// certified moments, in any order. One that is later counts for nothing.
pub(crate) fn state_by(days: Option<Days>, certified: &[Moment], t: Moment) -> State
    ensures { result ≡ state_by days certified.now t }
{
    state_of(days, cert(certified, t), t)
}
