// The marks of a sink in memory, of which only contracts know.
ghost use Rattle.std.specs.Prelude.{◌≡◌, ◌++◌, ◌∷◌, [], Some};

use crate::Stamp;
use crate::unstored::Unstored;
use std::marker::Model;
use std::snapshot::Snapshot;

// A moment, and how many bytes were written by then.
#[derive(Drop)]
struct MarkAt {
    moment: Snapshot<Stamp>,
    written: usize,
}

impl Model for MarkAt {
    ghost use Rattle.std.specs.Prelude.{Some};
    ghost use Rattle.reg_outside.specs.Marks.{Mark};

    ghost Value = { Mark };

    ghost view = { λ m. record { moment = m.moment.value; written = Some m.written } };
}

/// Marks that take no memory. Contracts see the list.
#[derive(Drop)]
pub struct Marks {
    list: Unstored<MarkAt>,
}

impl Model for Marks {
    ghost use Rattle.std.specs.Prelude.{List};
    ghost use Rattle.reg_outside.specs.Marks.{Mark};

    ghost Value = { List Mark };

    ghost view = { λ m. m.list.items };
}

impl Marks {
    /// No mark.
    pub fn new() -> Marks
        ensures { result ≡ [] }
    {
        Marks {
            list: Unstored::new(),
        }
    }

    /// One mark more, over so many bytes.
    pub fn set(&mut self, stamp: &Stamp, written: usize)
        ensures { self.new ≡ self.old
            ++ record { moment = stamp.now; written = Some written } ∷ [] }
    {
        let mark = MarkAt {
            moment: Snapshot::of(stamp),
            written,
        };
        self.list = self.list.then(&mark);
    }
}
