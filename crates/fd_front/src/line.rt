ghost use Rattle.std.specs.Prelude.{◌≡◌, [], ◌∷◌, ◌++◌, codes, decimal, IfOk, OnOk};
ghost use Rattle.std.specs.Option.{option_map_or};
ghost use Rattle.fd_front.specs.Lines.{cause_name, carried, place_text, fault_line};

use fd_words::{Bytes, Memory, Name, SourceCause, SourceFault, SourcePlace};
use itoa::Buffer;
use std::alloc::Global;

/// The fault's name, as it is written.
#[tactic(auto, unfolding(crate::specs::Lines::cause_name))]
fn cause_name(cause: SourceCause) -> &'static [u8]
    ensures { result.now ≡ cause_name cause }
{
    match cause {
        SourceCause::BadByte => b"BadByte",
        SourceCause::NumberTooLarge => b"NumberTooLarge",
        SourceCause::NameTooLong => b"NameTooLong",
        SourceCause::NoEnd => b"NoEnd",
        SourceCause::Unexpected => b"Unexpected",
        SourceCause::TooDeep => b"TooDeep",
        SourceCause::TooManyNames => b"TooManyNames",
        SourceCause::Unknown(_) => b"Unknown",
        SourceCause::NotIndex(_) => b"NotIndex",
        SourceCause::Twice(_) => b"Twice",
        SourceCause::ScalarTooLarge => b"ScalarTooLarge",
        SourceCause::BadExtent => b"BadExtent",
        SourceCause::AlignOutside => b"AlignOutside",
        SourceCause::MapLength => b"MapLength",
        SourceCause::AssignThroughIndex => b"AssignThroughIndex",
        SourceCause::TwoAssigns(_) => b"TwoAssigns",
        SourceCause::AssignAndReduce(_) => b"AssignAndReduce",
        SourceCause::TwoOperators(_) => b"TwoOperators",
        SourceCause::TooManyReferences => b"TooManyReferences",
        SourceCause::TooManyStamps => b"TooManyStamps",
        SourceCause::TooManyLoops => b"TooManyLoops",
        SourceCause::TraceTooLong => b"TraceTooLong",
        SourceCause::LoopTooLarge => b"LoopTooLarge",
        SourceCause::TextTooLong => b"TextTooLong",
    }
}

/// The name that a fault carries.
fn carried_name(cause: SourceCause) -> Option<Name>
    ensures { carried cause ≡ option_map_or (λ name. 32 ∷ name) result [] }
{
    match cause {
        SourceCause::Unknown(name) => Some(name),
        SourceCause::NotIndex(name) => Some(name),
        SourceCause::Twice(name) => Some(name),
        SourceCause::TwoAssigns(name) => Some(name),
        SourceCause::AssignAndReduce(name) => Some(name),
        SourceCause::TwoOperators(name) => Some(name),
        _ => None,
    }
}

fn append_carried(text: &mut Bytes, cause: SourceCause) -> Result<(), Memory>
    ensures { OnOk result (text.new ≡ text.old ++ carried cause) }
{
    match carried_name(cause) {
        None => Ok(()),
        Some(name) => {
            text.push(b' ')?;
            text.append(name.as_slice())
        }
    }
}

fn append_number(text: &mut Bytes, number: u32) -> Result<(), Memory>
    ensures { OnOk result (text.new ≡ text.old ++ decimal number) }
{
    let mut buffer = Buffer::new();
    text.append(buffer.format(number).as_bytes())
}

fn append_place(text: &mut Bytes, at: SourcePlace) -> Result<(), Memory>
    ensures { OnOk result (text.new ≡ text.old ++ place_text at) }
{
    text.append(b"source: line ")?;
    append_number(text, at.line)?;
    text.append(b", column ")?;
    append_number(text, at.column)
}

/// The line of a refused source: `source: line L, column C: F`, where F is the fault's name, and behind a blank the
/// name that it carries, if any.
pub fn fault_line(alloc: Global, fault: SourceFault) -> Result<Bytes, Memory>
    ensures { IfOk result (λ line. line ≡ fault_line fault) }
{
    let mut line = Bytes::new(alloc);
    append_place(&mut line, fault.at)?;
    line.append(b": ")?;
    line.append(cause_name(fault.cause))?;
    append_carried(&mut line, fault.cause)?;
    line.push(b'\n')?;
    Ok(line)
}
