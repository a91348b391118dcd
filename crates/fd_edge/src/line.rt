ghost use Rattle.std.specs.Prelude.{◌≡◌, ◌++◌, decimal, IfOk, OnOk};
ghost use Rattle.fd_edge.specs.Lines.{fault_text, data_line, unread_line, record_line, record_text, have_text};

use fd_data::DataFault;
use fd_words::{Bytes, Memory};
use itoa::Buffer;
use std::alloc::Global;

fn append_number(text: &mut Bytes, number: u64) -> Result<(), Memory>
    ensures { OnOk result (text.new ≡ text.old ++ decimal number) }
{
    let mut buffer = Buffer::new();
    text.append(buffer.format(number).as_bytes())
}

fn append_record(text: &mut Bytes, row: u64, what: &[u8]) -> Result<(), Memory>
    ensures { OnOk result (text.new ≡ text.old ++ record_text row what.now) }
{
    text.append(b"record ")?;
    append_number(text, row)?;
    text.append(b": ")?;
    text.append(what)
}

fn append_counts(text: &mut Bytes, have: u64, want: u64) -> Result<(), Memory>
    ensures { OnOk result (text.new ≡ text.old ++ have_text have want) }
{
    text.append(b"have ")?;
    append_number(text, have)?;
    text.append(b", want ")?;
    append_number(text, want)
}

fn append_fault(text: &mut Bytes, fault: DataFault) -> Result<(), Memory>
    ensures { OnOk result (text.new ≡ text.old ++ fault_text fault) }
{
    match fault {
        DataFault::Field { row } => append_record(text, row, b"not one field"),
        DataFault::Number { row } => append_record(text, row, b"not a number"),
        DataFault::Range { row } => append_record(text, row, b"out of range"),
        DataFault::Count { have, want } => append_counts(text, have, want),
        DataFault::TooLong => text.append(b"longer than 33554432 bytes"),
        DataFault::Memory => text.append(b"out of memory"),
    }
}

/// The line of a faulty data file: `data NAME: F`.
pub fn fault_line(alloc: Global, name: &[u8], fault: DataFault) -> Result<Bytes, Memory>
    ensures { IfOk result (λ line. line ≡ data_line name.now fault) }
{
    let mut line = Bytes::new(alloc);
    line.append(b"data ")?;
    line.append(name)?;
    line.append(b": ")?;
    append_fault(&mut line, fault)?;
    line.push(b'\n')?;
    Ok(line)
}

/// The line for a record that a program has no use for: `data NAME: record ROW: WHAT`.
pub fn record_line(alloc: Global, name: &[u8], row: u64, what: &[u8]) -> Result<Bytes, Memory>
    ensures { IfOk result (λ line. line ≡ record_line name.now row what.now) }
{
    let mut line = Bytes::new(alloc);
    line.append(b"data ")?;
    line.append(name)?;
    line.append(b": ")?;
    append_record(&mut line, row, what)?;
    line.push(b'\n')?;
    Ok(line)
}

/// The line for a file that can't be read: `cannot read NAME`.
pub fn unread_line(alloc: Global, name: &str) -> Result<Bytes, Memory>
    ensures { IfOk result (λ line. line ≡ unread_line name.now) }
{
    let mut line = Bytes::new(alloc);
    line.append(b"cannot read ")?;
    line.append(name.as_bytes())?;
    line.push(b'\n')?;
    Ok(line)
}
