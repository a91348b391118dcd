ghost use Rattle.std.specs.Prelude.{◌≡◌, IfOk};
ghost use Rattle.csv.specs.Records.{fields_of};
ghost use Rattle.fd_data.specs.CsvRows.{IsPlain, TakesRow, rows_left, records_of};

use csv::{ByteRecord, Reader, ReaderBuilder};
use fd_words::Memory;
use std::alloc::Global;

/// A reader of the records of a text that has no header row; a record may have any number of fields.
pub fn open_records(alloc: Global, text: &[u8]) -> Reader<&[u8]>
    ensures plain { IsPlain result }
    ensures rows { rows_left result ≡ records_of text.now }
{
    ReaderBuilder::new()
        .has_headers(false)
        .flexible(true)
        .from_reader(alloc, text)
}

/// Reads the next record, if there is one. A reader over memory fails for want of memory alone.
pub fn next_row(reader: &mut Reader<&[u8]>, row: &mut ByteRecord) -> Result<bool, Memory>
    requires { IsPlain reader.old }
    ensures found { IfOk result (λ found. TakesRow found reader.old reader.new (fields_of row.new)) }
{
    let Ok(found) = reader.read_byte_record(row) else {
        return Err(Memory);
    };
    Ok(found)
}
