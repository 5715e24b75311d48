// A list of which only contracts know.
ghost use Rattle.std.specs.Prelude.{◌≡◌, ◌++◌, ◌∷◌, [], List};
ghost use Rattle.std.specs.Coded.{coded_list};
ghost use base.Fml.{ftrue};

use std::marker::{Model, PhantomData};

/// A list that takes no memory, since code can't read it: contracts alone see its items.
pub(crate) struct Unstored<T> {
    marker: PhantomData<T>,
    pub(crate) ghost items: { List T } by { coded_list T.code },
}

impl<T> Model for Unstored<T> {
    ghost also_owns = { λ _. ftrue };
}

impl<T> Unstored<T> {
    /// No item.
    pub(crate) fn new() -> Unstored<T>
        ensures { result.items ≡ [] }
    {
        Unstored {
            marker: PhantomData,
        }
    }

    /// The items and one more behind them.
    pub(crate) fn then(&self, item: &T) -> Unstored<T>
        ensures { result.items ≡ self.now.items ++ item.now ∷ [] }
    {
        let _ = item;
        Unstored {
            marker: PhantomData,
        }
    }
}

impl<T> Drop for Unstored<T> {
    fn drop(self) {
        let Self { marker: _ } = self;
    }
}
