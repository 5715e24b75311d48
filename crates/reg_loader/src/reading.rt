// A table read record by record.
ghost use Rattle.std.specs.Prelude.{◌≡◌, ◌<◌, ◌-◌, ◌^◌, ℕ, List, [], ◌∷◌, ◌++◌, IfErr, OnOk};
ghost use Rattle.csv.specs.Records.{AllText, fields_of};
ghost use Rattle.reg_loader.specs.Tables.{Fields, Answers, Fails, table_in, table_of};
ghost use Rattle.reg_loader.specs.Readings.{IsFirst, IsUnder, IsReading};

use crate::columns::Columns;
use crate::{Table, TableFault};
use csv::{ByteRecord, ReaderBuilder, StringRecord};
use reg_terms::MAX_RECORDS;
use std::alloc::Global;

/// What a header says.
#[derive(Clone, Copy, Drop)]
struct Header {
    columns: Columns,
    /// How many fields it has.
    width: usize,
}

/// What the records of a table say so far, none of which is bad.
#[derive(Drop)]
struct Reading {
    alloc: Global,
    /// Whether the load is of many groups.
    list: bool,
    /// None before the first record.
    header: Option<Header>,
    /// How many records there were, the header among them.
    count: u64,
    /// The first rows, no more than `MAX_RECORDS`.
    table: Table,
}

impl Reading {
    /// No record yet.
    fn new(alloc: Global, list: bool) -> Reading
        ensures list_is { result.list ≡ list }
        ensures none { IsFirst result }
    {
        Reading {
            alloc,
            list,
            header: None,
            count: 0,
            table: Table::new(alloc),
        }
    }

    /// Takes the header.
    fn take_header(&mut self, header: &StringRecord) -> Result<(), TableFault>
        requires { AllText (fields_of header.now) }
        ensures list { self.new.list ≡ self.old.list }
        ensures taken { OnOk result (IsFirst self.old
            → IsUnder self.old.list (fields_of header.now) [] self.new) }
        ensures refused { IfErr result (λ fault. (more : List Fields)
            → Fails (table_of self.old.list (fields_of header.now ∷ more)) fault) }
    {
        let Some(columns) = Columns::of(header, self.list) else {
            return Err(TableFault::Bad { row: 0 });
        };
        self.header = Some(Header {
            columns,
            width: header.len(),
        });
        self.count = 1;
        Ok(())
    }

    /// Takes a record under the header.
    fn take_row(&mut self, header: Header, fields: &StringRecord) -> Result<(), TableFault>
        requires text { AllText (fields_of fields.now) }
        requires header { self.old.header ≡ Some header }
        requires room { self.old.count < 2 ^ 64 - 1 }
        ensures list { self.new.list ≡ self.old.list }
        ensures taken { OnOk result ((all : List Fields) → IsReading self.old.list all self.old
            → IsReading self.old.list (all ++ fields_of fields.now ∷ []) self.new) }
        ensures refused { IfErr result (λ fault. (all more : List Fields)
            → IsReading self.old.list all self.old
            → Fails (table_of self.old.list (all ++ fields_of fields.now ∷ more)) fault) }
    {
        if fields.len() != header.width {
            return Err(TableFault::Bad { row: self.count });
        }
        self.count += 1;
        if self.count > MAX_RECORDS + 1 {
            return Ok(());
        }
        let row = header.columns.row(self.alloc, fields)?;
        self.table.push(row)?;
        Ok(())
    }

    /// Takes the next record. It fails for the fault of every table that begins with these records.
    fn take(&mut self, fields: ByteRecord) -> Result<(), TableFault>
        requires room { self.old.count < 2 ^ 64 - 1 }
        ensures list { self.new.list ≡ self.old.list }
        ensures taken { OnOk result ((all : List Fields) → IsReading self.old.list all self.old
            → IsReading self.old.list (all ++ fields_of fields ∷ []) self.new) }
        ensures refused { IfErr result (λ fault. (all more : List Fields)
            → IsReading self.old.list all self.old
            → Fails (table_of self.old.list (all ++ fields_of fields ∷ more)) fault) }
    {
        let Ok(fields) = StringRecord::from_byte_record(fields) else {
            return Err(TableFault::Bad { row: self.count });
        };
        match self.header {
            Some(header) => self.take_row(header, &fields),
            None => self.take_header(&fields),
        }
    }

    /// What the records say, where no more come.
    fn finish(self) -> Result<Table, TableFault>
        ensures { (all : List Fields) → IsReading self.list all self
            → Answers (table_of self.list all) result }
    {
        if self.count == 0 {
            return Err(TableFault::Bad { row: 0 });
        }
        if self.count > MAX_RECORDS + 1 {
            return Err(TableFault::TooMany);
        }
        Ok(self.table)
    }
}

/// Reads a table from its bytes, for a load of many groups (`list`) or of one. The bytes are CSV
/// with a header; a byte order mark in front is dropped, and lines of no bytes are no records.
/// Columns are found by their names in the header in any case of ASCII letters, and of two of one
/// name the first counts.
pub fn read_table(alloc: Global, bytes: &[u8], list: bool) -> Result<Table, TableFault>
    ensures { Answers (table_in list bytes.now) result }
{
    let reader = ReaderBuilder::new()
        .has_headers(false)
        .flexible(true)
        .from_reader(alloc, bytes);
    let mut reading = Reading::new(alloc, list);
    for row in reader.into_byte_records() {
        match row {
            Ok(fields) => reading.take(fields)?,
            // A slice never fails and records may differ in length, so only memory is left.
            Err(_) => return Err(TableFault::NoMemory),
        }
    }
    reading.finish()
}
