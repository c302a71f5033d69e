ghost use Rattle.std.specs.Prelude.{◌≡◌};
ghost use Rattle.csv.specs.Records.{fields_of};
ghost use Rattle.btr_rows.specs.Row.{first_reason, row_of};

use crate::field::read_id;
use crate::row::{Row, RowReason};
use btr_base::{Point, read_signed_decimal};
use csv::ByteRecord;

/// Reads what a record of any number of fields says.
pub fn read_record(row: &ByteRecord) -> Result<Row, RowReason>
    ensures { result ≡ row_of (fields_of row.now) }
{
    if row.len() != 3 {
        return Err(RowReason::Fields);
    }
    match (row.get(0), row.get(1), row.get(2)) {
        (Some(id), Some(time), Some(value)) => {
            row_from(
                read_id(id),
                read_signed_decimal(time),
                read_signed_decimal(value),
            )
        }
        _ => Err(RowReason::Fields),
    }
}

/// Returns what a record says by the values of its three fields, if they have one.
pub fn row_from(id: Option<u128>, time: Option<i64>, value: Option<i64>) -> Result<Row, RowReason>
    ensures { result ≡ first_reason id time value }
{
    let id = id.ok_or(RowReason::Id)?;
    let time = time.ok_or(RowReason::Time)?;
    let value = value.ok_or(RowReason::Value)?;
    let point = Point { time, value };
    if !point.is_in_domain() {
        return Err(RowReason::Domain { time });
    }
    Ok(Row { id, point })
}
