// A table as it was read: a list of rows.
ghost use Rattle.std.specs.Prelude.{◌≡◌, [], ◌∷◌, ◌++◌, OnOk, OnErr};

use reg_base::Text;
use reg_terms::MAX_RECORDS;
use std::alloc::{AllocError, Global};
use std::marker::Model;
use thiserror::Error;

/// A record of a table: the texts in the columns that a load reads.
#[derive(Drop)]
pub struct TableRow {
    /// What stands under `GROUP_NAME`; None where the load is of one group.
    pub group: Option<Text>,
    /// What stands under `SUBJECT_SOURCE_ID`; None where the table has no such column.
    pub source: Option<Text>,
    /// What stands under `SUBJECT_ID`.
    pub id: Text,
}

/// The rows of a table, in the order of its records. Contracts see the list.
#[derive(Drop)]
pub struct Table {
    rows: Vec<TableRow>,
}

impl Model for Table {
    ghost use Rattle.std.specs.Prelude.{List};
    ghost use Rattle.reg_loader.specs.declared.tables.TableRow.{TableRow};

    ghost Value = { List TableRow };

    ghost view = { λ t. t.rows.items };
}

impl Table {
    /// No rows. Takes no memory.
    pub fn new(alloc: Global) -> Table
        ensures { result ≡ [] }
    {
        Table {
            rows: Vec::new(alloc),
        }
    }

    /// Adds a row at the end. Out of memory the table stays as it was.
    pub fn push(&mut self, row: TableRow) -> Result<(), AllocError>
        ensures ok { OnOk result (self.new ≡ self.old ++ row ∷ []) }
        ensures err { OnErr result (self.new ≡ self.old) }
    {
        self.rows.push(row)?;
        Ok(())
    }

    /// The rows.
    pub fn list(&self) -> &[TableRow]
        ensures { result.now ≡ self.now }
    {
        &self.rows
    }
}

/// Why bytes aren't read as a table.
#[derive(Clone, Copy, Debug, PartialEq, Eq, Error)]
pub enum TableFault {
    /// This record, where the header is number 0, has another number of fields than the header, or
    /// a field that isn't UTF-8; it is the first such record. Number 0 also where there is no
    /// header, or a column is missing.
    #[error("record {row} doesn't suit the header, which is record 0")]
    Bad { row: u64 },
    /// No record is bad, and there are more than `MAX_RECORDS` under the header.
    #[error("more than {MAX_RECORDS} records")]
    TooMany,
    #[error("out of memory")]
    NoMemory,
}

impl From<AllocError> for TableFault {
    ghost use Rattle.reg_loader.specs.declared.tables.TableFault.TheVariants.{NoMemory};

    ghost from_gives = { λ _ e. e ≡ NoMemory };

    fn from(_: AllocError) -> Self {
        TableFault::NoMemory
    }
}
