// A list of rows that finds them by their keys, and knows what they name.
ghost use Rattle.std.specs.Prelude.{Bool, ◌≡◌, ◌++◌, ◌∷◌, ◌<◌, ◌^◌, [], false, not, if◌then◌else◌};
ghost use Rattle.std.specs.Prelude.{filter, map, length, MatchOption, IfOk, OnOk, OnErr, true};
ghost use Rattle.std.specs.List.{list_any, find};
ghost use Rattle.std.specs.Option.{option_copied};
ghost use Rattle.std.specs.Map.Iter.{deref};
ghost use Rattle.reg_table.specs.Keyed.{is_of, is_row, row_order, in_order};
ghost use Rattle.reg_table.specs.Links.{has_link};

use crate::linked::{Linked, add_link, remove_link, replace_link};
use crate::{GroupRows, LinkedRow, Table};
use std::alloc::{AllocError, Global};
use std::marker::Model;

/// Rows, no two of one key. Contracts see the list of them, in the order in which they were added.
#[derive(Drop)]
pub struct LinkedTable<R: LinkedRow> {
    rows: Table<R>,
    /// The links of those that have one.
    links: Table<Linked<R::Link, (R::Group, R::Place)>>,
}

impl<R: LinkedRow> Model for LinkedTable<R> {
    ghost use Rattle.std.specs.Prelude.{◌≡◌, List};
    ghost use Rattle.reg_table.specs.Links.{links_of};

    ghost Value = { List R };

    ghost view = { λ t. t.rows };

    ghost invariant = { λ t. t.links ≡ links_of R.group_of R.place_of R.link_at t.rows };
}

impl<R: LinkedRow> LinkedTable<R> {
    /// No row. It takes no memory.
    pub fn new(alloc: Global) -> LinkedTable<R>
        ensures { result ≡ [] }
    {
        LinkedTable {
            rows: Table::new(alloc),
            links: Table::new(alloc),
        }
    }

    /// How many rows there are.
    pub fn len(&self) -> usize
        ensures { result ≡ length self.now }
    {
        self.rows.len()
    }

    /// Whether there is a row in a group at a place. It takes no memory.
    pub fn contains(&self, group: R::Group, place: R::Place) -> bool
        ensures { result ≡ list_any
            (is_row R.Group.eq R.Place.eq R.group_of R.place_of group place) self.now }
    {
        self.rows.contains(group, place)
    }

    /// Whether a row has a link. It takes no memory.
    pub fn is_linked(&self, link: R::Link) -> bool
        ensures { result ≡ list_any
            (has_link R.Link.eq R.group_of R.place_of R.link_at link) self.now }
    {
        self.links.has_rows(link)
    }

    /// The row in a group at a place. It takes no memory.
    pub fn get(&self, group: R::Group, place: R::Place) -> Option<&R>
        ensures { option_copied result
            ≡ find (is_row R.Group.eq R.Place.eq R.group_of R.place_of group place) self.now }
    {
        self.rows.get(group, place)
    }

    /// Adds a row behind the others. On failure the rows are as they were.
    pub fn push(&mut self, row: R) -> Result<(), AllocError>
    where
        R: Drop,
        requires free { list_any
            (is_row R.Group.eq R.Place.eq R.group_of R.place_of (R.group_of row) (R.place_of row))
            self.old ≡ false }
        ensures added { OnOk result (self.new ≡ self.old ++ row ∷ []) }
        ensures err { OnErr result (self.new ≡ self.old) }
    {
        let key = (row.group(), row.place());
        let link = R::link(key.0, key.1);
        add_link(&mut self.links, link, key)?;
        match self.rows.push(row) {
            Ok(()) => Ok(()),
            Err(_) => {
                remove_link(&mut self.links, link, key);
                Err(AllocError)
            }
        }
    }

    /// Takes the row in a group at a place away, if there is one. It takes no memory.
    pub fn remove(&mut self, group: R::Group, place: R::Place) -> Option<R>
        ensures removed { self.new
            ≡ filter (λ row. not (is_row R.Group.eq R.Place.eq R.group_of R.place_of group place
            row)) self.old }
        ensures row { result ≡ find
            (is_row R.Group.eq R.Place.eq R.group_of R.place_of group place) self.old }
    {
        remove_link(&mut self.links, R::link(group, place), (group, place));
        self.rows.remove(group, place)
    }

    /// Puts a row in the place of the one that has its key, and gives that one. Where there is none
    /// the row is let go. It takes no memory.
    pub fn replace(&mut self, row: R) -> Option<R>
    where
        R: Drop,
        ensures replaced { self.new
            ≡ map (λ other. if is_row R.Group.eq R.Place.eq R.group_of R.place_of (R.group_of row)
            (R.place_of row) other then row else other) self.old }
        ensures row { result ≡ find
            (is_row R.Group.eq R.Place.eq R.group_of R.place_of (R.group_of row) (R.place_of row))
            self.old }
    {
        let key = (row.group(), row.place());
        replace_link(&mut self.links, R::link(key.0, key.1), key);
        self.rows.replace(row)
    }

    /// The rows, in the order in which they were added. They are put in order each time.
    pub fn rows(&self, alloc: Global) -> Result<Vec<&R>, AllocError>
        ensures { IfOk result (λ rows. map deref rows.items ≡ self.now) }
    {
        self.rows.rows(alloc)
    }

    /// The rows of a group, in the order of their places. It takes no memory.
    pub fn rows_of(&self, group: R::Group) -> GroupRows<'_, R>
        ensures rows { result ≡ in_order (row_order R.Group.cmp R.Place.cmp R.group_of R.place_of)
            (filter (is_of R.Group.eq R.group_of group) self.now) }
        ensures same { (test : R → Bool)
            → list_any test result ≡ list_any test
            (filter (is_of R.Group.eq R.group_of group) self.now) }
        ensures fits { length result < 2 ^ 63 }
    {
        self.rows.rows_of(group)
    }

    /// Whether a group has a row. It takes no memory.
    pub fn has_rows(&self, group: R::Group) -> bool
        ensures { result ≡ list_any (is_of R.Group.eq R.group_of group) self.now }
    {
        self.rows.has_rows(group)
    }

    /// The place of the first row of a group. It takes no memory.
    fn first_place(&self, group: R::Group) -> Option<R::Place>
        ensures { MatchOption result (list_any (is_of R.Group.eq R.group_of group) self.now
            ≡ false) (λ place. list_any
            (is_row R.Group.eq R.Place.eq R.group_of R.place_of group place) self.now ≡ true) }
    {
        self.rows.first_place(group)
    }

    /// Takes the row in a group at a place away, and lets it go.
    fn let_go(&mut self, group: R::Group, place: R::Place)
    where
        R: Drop,
        ensures { self.new ≡ filter
            (λ row. not (is_row R.Group.eq R.Place.eq R.group_of R.place_of group place row))
            self.old }
    {
        self.remove(group, place);
    }

    /// Takes the rows of a group away, one after another. It takes no memory.
    pub fn remove_group(&mut self, group: R::Group)
    where
        R: Drop,
        ensures { self.new ≡ filter (λ row. not (is_of R.Group.eq R.group_of group row)) self.old }
    {
        while let Some(place) = self.first_place(group) {
            self.let_go(group, place);
        }
    }
}
