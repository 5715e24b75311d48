// Rows by their ids.
ghost use Rattle.std.specs.Prelude.{◌≡◌, ◌==◌, ℕ, map, filter, not};
ghost use Rattle.std.specs.List.{find, position};
ghost use Rattle.std.specs.List.Sorted.{IsStrictlySortedBy};
ghost use Rattle.std.specs.Option.{option_copied};
ghost use Rattle.std.specs.Ordering.{nat_cmp};

use crate::{AttributeRow, DefinitionRow, FolderRow, GroupRow, JobRow, RuleRow, SubjectRow};

/// A row that has an id of its kind.
pub trait Numbered {
    /// The first id of the kind.
    const FIRST: u32;

    ghost number_of: { Self → ℕ };

    fn number(&self) -> u32
        ensures { result ≡ number_of self.now };
}

impl Numbered for FolderRow {
    const FIRST: u32 = 0;

    ghost number_of = { λ row. row.id };

    fn number(&self) -> u32 {
        self.id.number()
    }
}

impl Numbered for GroupRow {
    const FIRST: u32 = 1;

    ghost number_of = { λ row. row.id };

    fn number(&self) -> u32 {
        self.id.number()
    }
}

impl Numbered for SubjectRow {
    const FIRST: u32 = 1;

    ghost number_of = { λ row. row.id };

    fn number(&self) -> u32 {
        self.id.number()
    }
}

impl Numbered for DefinitionRow {
    const FIRST: u32 = 1;

    ghost number_of = { λ row. row.id };

    fn number(&self) -> u32 {
        self.id.number()
    }
}

impl Numbered for AttributeRow {
    const FIRST: u32 = 1;

    ghost number_of = { λ row. row.id };

    fn number(&self) -> u32 {
        self.id.number()
    }
}

impl Numbered for RuleRow {
    const FIRST: u32 = 1;

    ghost number_of = { λ row. row.id };

    fn number(&self) -> u32 {
        self.id.number()
    }
}

impl Numbered for JobRow {
    const FIRST: u32 = 1;

    ghost number_of = { λ row. row.id };

    fn number(&self) -> u32 {
        self.id.number()
    }
}

/// The place of the row of this id, among rows whose ids ascend. Where no row was taken away before
/// it, it stands at the place that its id tells, which is looked at first; else it is sought.
pub fn place_by_id<R: Numbered>(rows: &[R], id: u32) -> Option<usize>
    requires { IsStrictlySortedBy nat_cmp (map R.number_of rows.now) }
    ensures { result ≡ position (λ row. R.number_of row == id) rows.now }
{
    let place = id.saturating_sub(R::FIRST) as usize;
    if let Some(row) = rows.get(place) {
        if row.number() == id {
            return Some(place);
        }
    }
    rows.binary_search_by_key(&id, |row| row.number()).ok()
}

/// The row of this id, among rows whose ids ascend.
pub fn row_by_id<R: Numbered>(rows: &[R], id: u32) -> Option<&R>
    requires { IsStrictlySortedBy nat_cmp (map R.number_of rows.now) }
    ensures { option_copied result ≡ find (λ row. R.number_of row == id) rows.now }
{
    let place = place_by_id(rows, id)?;
    rows.get(place)
}

/// Takes the row of this id away, among rows whose ids ascend.
pub fn remove_by_id<R: Numbered + Drop>(rows: &mut Vec<R>, id: u32)
    requires { IsStrictlySortedBy nat_cmp (map R.number_of rows.old.items) }
    ensures { rows.new.items ≡ filter (λ row. not (R.number_of row == id)) rows.old.items }
{
    if let Some(place) = place_by_id(rows.as_slice(), id) {
        rows.remove(place);
    }
}
