// A moment, for contracts alone.
ghost use Rattle.std.specs.Prelude.{◌≡◌};

use std::marker::Model;
use std::snapshot::Snapshot;

/// A moment of a disk or of a keeper. It has no bytes: code can't read it, and contracts see a
/// number.
#[derive(Drop)]
pub struct Stamp {
    at: Snapshot<usize>,
}

impl Model for Stamp {
    ghost use Rattle.std.specs.Prelude.{ℕ};

    ghost Value = { ℕ };

    ghost view = { λ s. s.at.value };
}

impl Stamp {
    /// The moment of this number, for who implements a disk or a keeper. To stamp an earlier moment
    /// than the present one only makes stronger what is claimed since then.
    pub fn of(count: &usize) -> Stamp
        ensures { result ≡ count.now }
    {
        Stamp {
            at: Snapshot::of(count),
        }
    }
}
