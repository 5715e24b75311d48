// Which columns of a table are read, and the row that a record gives.
ghost use Rattle.std.specs.Prelude.{◌≡◌, IfOk, option_map};
ghost use Rattle.std.specs.Str.{str_eq_ignore_ascii_case};
ghost use Rattle.csv.specs.Records.{fields_of};
ghost use Rattle.reg_loader.specs.Columns.{column, columns_of};
ghost use Rattle.reg_loader.specs.Rows.{field, row_of};

use crate::TableRow;
use csv::StringRecord;
use reg_base::Text;
use std::alloc::{AllocError, Global};

/// Where the columns stand that are read.
#[derive(Clone, Copy, Drop)]
pub(crate) struct Columns {
    /// `GROUP_NAME`, where the load is of many groups.
    group: Option<usize>,
    /// `SUBJECT_SOURCE_ID`, where the table has it.
    source: Option<usize>,
    /// `SUBJECT_ID`.
    id: usize,
}

/// The text in a field; empty past the last.
fn field_in(fields: &StringRecord, place: usize) -> &str
    ensures { result.now ≡ field (fields_of fields.now) place }
{
    match fields.get(place) {
        Some(text) => text,
        None => "",
    }
}

/// Whether a column has this name, in any case of its ASCII letters.
fn is_named(header: &StringRecord, place: usize, name: &str) -> bool
    ensures { result ≡ str_eq_ignore_ascii_case (field (fields_of header.now) place) name.now }
{
    field_in(header, place).eq_ignore_ascii_case(name)
}

/// Where the first column of this name stands.
fn column(header: &StringRecord, name: &str) -> Option<usize>
    ensures { result ≡ column name.now (fields_of header.now) }
{
    for place in 0..header.len() {
        if is_named(header, place, name) {
            return Some(place);
        }
    }
    None
}

/// The text in a field, kept; empty past the last.
fn text_in(alloc: Global, fields: &StringRecord, place: usize) -> Result<Text, AllocError>
    ensures { IfOk result (λ text. text ≡ field (fields_of fields.now) place) }
{
    Text::new(alloc, field_in(fields, place))
}

/// The text in the field of a column that may be missing.
fn text_at(
    alloc: Global,
    fields: &StringRecord,
    place: Option<usize>,
) -> Result<Option<Text>, AllocError>
    ensures { IfOk result (λ text. text ≡ option_map (field (fields_of fields.now)) place) }
{
    match place {
        Some(place) => {
            let text = text_in(alloc, fields, place)?;
            Ok(Some(text))
        }
        None => Ok(None),
    }
}

impl Columns {
    /// The columns under this header, for a load of many groups or of one. None where one is
    /// missing.
    pub(crate) fn of(header: &StringRecord, list: bool) -> Option<Columns>
        ensures { result ≡ columns_of list (fields_of header.now) }
    {
        let group = column(header, "GROUP_NAME");
        let source = column(header, "SUBJECT_SOURCE_ID");
        let id = column(header, "SUBJECT_ID")?;
        if !list {
            return Some(Columns {
                group: None,
                source,
                id,
            });
        }
        group?;
        Some(Columns { group, source, id })
    }

    /// The row that a record gives.
    pub(crate) fn row(&self, alloc: Global, fields: &StringRecord) -> Result<TableRow, AllocError>
        ensures { IfOk result (λ row. row ≡ row_of self.now (fields_of fields.now)) }
    {
        let group = text_at(alloc, fields, self.group)?;
        let source = text_at(alloc, fields, self.source)?;
        let id = text_in(alloc, fields, self.id)?;
        Ok(TableRow { group, source, id })
    }
}
