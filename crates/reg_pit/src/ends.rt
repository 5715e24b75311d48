// When intervals end.
ghost use Rattle.std.specs.Prelude.{◌≡◌, ◌+◌, ◌&&◌, Some, None, nat_le, nat_lt, if◌then◌else◌};
ghost use Rattle.reg_pit.specs.Runs.{never};

use reg_base::Moment;
use std::marker::Model;

/// The number after all moments.
const NEVER: u64 = 253_402_300_800_000_000;

/// The end of an interval: the first moment that isn't in it. One that has no end ends after all
/// moments.
#[derive(Clone, Copy, PartialEq, Eq, PartialOrd, Ord)]
pub(crate) struct End {
    micros: u64,
}

impl Model for End {
    ghost use Rattle.std.specs.Prelude.{ℕ};

    ghost Value = { ℕ };

    ghost view = { λ e. e.micros };

    ghost inverse = { λ n. record { micros = n } };
}

impl End {
    /// The end at a moment.
    pub(crate) fn at(moment: Moment) -> End
        ensures { result ≡ moment }
    {
        End {
            micros: moment.micros(),
        }
    }

    /// The first end after a moment.
    pub(crate) fn after(moment: Moment) -> End
        ensures { result ≡ moment + 1 }
    {
        End {
            micros: moment.micros() + 1,
        }
    }

    /// The end of an interval that has none.
    pub(crate) fn never() -> End
        ensures { result ≡ never }
    {
        End { micros: NEVER }
    }

    /// The moment of this end, if it has one.
    pub(crate) fn moment(self) -> Option<Moment>
        ensures { result ≡ (if nat_lt self never then Some self else None) }
    {
        Moment::new(self.micros)
    }

    /// Whether an interval from a start until here has a moment.
    pub(crate) fn has(self, start: Moment, moment: Moment) -> bool
        ensures { result ≡ (nat_le start moment && nat_lt moment self) }
    {
        start.micros() <= moment.micros() && moment.micros() < self.micros
    }
}
