ghost use Rattle.std.specs.Prelude.{◌≡◌, ◌+◌, ◌<◌, ◌^◌, List, ℕ, ◌++◌, length, map, Result, OnOk, IfOk};
ghost use Rattle.csv.specs.Records.{fields_of};
ghost use Rattle.btr_rows.specs.declared.row.Row.{Row as RowSpec};
ghost use Rattle.btr_rows.specs.declared.row.RowReason.{RowReason as ReasonSpec};
ghost use Rattle.btr_rows.specs.Row.{row_of};
ghost use Rattle.btr_rows.specs.Rows.{records_of};
ghost use Rattle.btr_rows.specs.Builder.{built_of};
ghost use Rattle.btr_rows.specs.Reading.{HasLeft, ReadsNext};

use crate::builder::Builder;
use crate::record::read_record;
use csv::{ByteRecord, Reader, ReaderBuilder};
use std::alloc::{AllocError, Global};

/// Adds what each record of a text says. An `Err` means out of memory.
pub fn read_records(alloc: Global, text: &[u8], rows: &mut Builder) -> Result<(), AllocError>
    requires { rows.old.count + length text.now < 2 ^ 64 }
    ensures { (before : List (Result RowSpec ReasonSpec)) → rows.old ≡ built_of before
        → OnOk result (rows.new ≡ built_of (before ++ map row_of (records_of text.now))) }
{
    let mut reader = ReaderBuilder::new()
        .has_headers(false)
        .flexible(true)
        .from_reader(alloc, text);
    let mut fields = ByteRecord::new(alloc);
    while next_fields(&mut reader, &mut fields)? {
        rows.add(alloc, read_record(&fields))?;
    }
    Ok(())
}

/// Reads the next record, and returns whether there is one. An `Err` means out of memory.
fn next_fields(reader: &mut Reader<&[u8]>, fields: &mut ByteRecord) -> Result<bool, AllocError>
    ensures { (left : List ℕ) → HasLeft reader.old left → IfOk result (ReadsNext left reader.new (fields_of fields.new)) }
{
    let Ok(found) = reader.read_byte_record(fields) else {
        return Err(AllocError);
    };
    Ok(found)
}
