// Rows that name something beside their keys.
ghost use Rattle.std.specs.Prelude.{◌≡◌, Option, true};
ghost use Rattle.std.specs.Option.{option_eq};

use crate::Row;

/// A row whose key may name something else, its link: as a membership names the group that is its
/// member, or a grant the group that holds it. Keys that are equal have equal links.
pub trait LinkedRow: Row {
    /// What the key of a row may name.
    type Link: Ord + Copy;

    ghost link_at: { Self.Group → Self.Place → Option Self.Link };

    /// The link of the row in a group at a place, if it has one.
    fn link(group: Self::Group, place: Self::Place) -> Option<Self::Link>
        ensures { result ≡ link_at group place };

    ghost link_alike: { (g h : Self.Group) (p q : Self.Place) → Self.Group.eq g h ≡ true → Self.Place.eq p q ≡ true → option_eq Self.Link.eq (link_at g p) (link_at h q) ≡ true };
}
