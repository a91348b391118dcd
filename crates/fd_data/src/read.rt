ghost use Rattle.std.specs.Prelude.{◌≡◌, ◌≢◌, ◌⊎◌, Ok, Err, option_map};
ghost use Rattle.csv.specs.Records.{fields_of};
ghost use Rattle.fd_data.specs.Data.{data_of, counted, number_in, only_of};

use crate::field::{Spelled, spelled_in};
use crate::rows::{next_row, open_records};
use csv::ByteRecord;
use fd_words::Numbers;
use std::alloc::Global;
use thiserror::Error;

/// Why a data file is refused.
#[derive(Clone, Copy, Debug, PartialEq, Eq, Error)]
pub enum DataFault {
    /// A record, counted from 1, hasn't one field.
    #[error("record {row}: not one field")]
    Field { row: u64 },
    /// Its field isn't an optional sign and one or more digits, with blanks round it or not.
    #[error("record {row}: not a number")]
    Number { row: u64 },
    /// Its number isn't a signed 64-bit one.
    #[error("record {row}: out of range")]
    Range { row: u64 },
    /// No record is faulty, and there aren't as many as elements.
    #[error("have {have}, want {want}")]
    Count { have: u64, want: u64 },
    /// The file has more bytes than its reader takes. `read_array` never gives it.
    #[error("too long")]
    TooLong,
    #[error("out of memory")]
    Memory,
}

/// The field of a record that has one.
fn only_field(row: &ByteRecord) -> Option<&[u8]>
    ensures { option_map (λ f. f.now) result ≡ only_of (fields_of row.now) }
{
    match row.get(1) {
        Some(_) => None,
        None => row.get(0),
    }
}

/// The number of one record.
fn number_of(row: &ByteRecord, place: u64) -> Result<i64, DataFault>
    ensures exact { result ≡ number_in place (fields_of row.now) }
    ensures never_long { result ≢ Err DataFault.TooLong }
{
    let Some(field) = only_field(row) else {
        return Err(DataFault::Field { row: place });
    };
    match spelled_in(field) {
        Spelled::Value(value) => Ok(value),
        Spelled::NoNumber => Err(DataFault::Number { row: place }),
        Spelled::OutOfRange => Err(DataFault::Range { row: place }),
    }
}

/// As many numbers as there are elements.
fn counted_values(values: Numbers, extent: u64) -> Result<Numbers, DataFault>
    ensures exact { result ≡ counted extent (Ok values) }
    ensures never_long { result ≢ Err DataFault.TooLong }
{
    let have = values.len();
    if have == extent {
        Ok(values)
    } else {
        Err(DataFault::Count { have, want: extent })
    }
}

/// The numbers of a data file, as many as the array has elements, or the first fault. It never
/// answers `TooLong`: how long a file may be is for the caller to say.
pub fn read_array(alloc: Global, bytes: &[u8], extent: u64) -> Result<Numbers, DataFault>
    ensures exact { (result ≡ Err DataFault.Memory) ⊎ (result ≡ data_of bytes.now extent) }
    ensures never_long { result ≢ Err DataFault.TooLong }
{
    let mut reader = open_records(alloc, bytes);
    let mut row = ByteRecord::new(alloc);
    let mut values = Numbers::new(alloc);
    for _ in 0..u64::MAX {
        match next_row(&mut reader, &mut row) {
            Err(_) => return Err(DataFault::Memory),
            Ok(false) => return counted_values(values, extent),
            Ok(true) => {
                let place = values.len() + 1;
                let value = number_of(&row, place)?;
                if values.push(value).is_err() {
                    return Err(DataFault::Memory);
                }
            }
        }
    }
    Err(DataFault::Memory)
}
