// A stretch of time in which the same holds of a group.
ghost use Rattle.std.specs.Prelude.{◌≡◌};

use crate::days::Days;
use reg_base::Moment;
use std::marker::Model;

/// The days for which a certification of a group lasts, if any are set, and the moments at which it
/// was certified, in any order, as they hold from a moment on until the next stretch begins.
#[derive(Drop)]
pub(crate) struct Stretch {
    pub(crate) from: Moment,
    pub(crate) days: Option<Days>,
    pub(crate) certified: Vec<Moment>,
}

impl Model for Stretch {
    ghost use Rattle.reg_access.specs.Stretches.{Held};

    ghost Value = { Held };

    ghost view = { λ s. record {
      from = s.from;
      days = s.days;
      certified = s.certified.items;
    } };
}

impl Stretch {
    /// What holds from a moment on.
    pub(crate) fn new(from: Moment, days: Option<Days>, certified: Vec<Moment>) -> Stretch
        ensures { result ≡ record { from = from; days = days; certified = certified.items } }
    {
        Stretch {
            from,
            days,
            certified,
        }
    }
}
