ghost use Rattle.std.specs.Prelude.{◌≡◌, ◌++◌, ◌∷◌, OnOk, IfOk};
ghost use Rattle.std.specs.Fmt.{signed_decimal};
ghost use Rattle.std.specs.List.{flat_map};
ghost use Rattle.fd_data.specs.Line.{line_of as the_line};

use fd_words::{Bytes, Memory, Name, Numbers};
use itoa::Buffer;
use std::alloc::Global;

/// Appends numbers, each after a blank.
fn append_numbers(text: &mut Bytes, values: &[i64]) -> Result<(), Memory>
    ensures { OnOk result (text.new ≡ text.old ++ flat_map (λ v. 32 ∷ signed_decimal v) values.now) }
{
    let mut buffer = Buffer::new();
    for value in values {
        text.push(b' ')?;
        text.append(buffer.format(*value).as_bytes())?;
    }
    Ok(())
}

/// The line of an array: its name, the sign `=`, each element after a blank, and a line end.
pub fn line_of(alloc: Global, name: &Name, values: &Numbers) -> Result<Bytes, Memory>
    ensures { IfOk result (λ line. line ≡ the_line name.now values.now) }
{
    let mut text = Bytes::new(alloc);
    text.append(name.as_slice())?;
    text.append(b" =")?;
    append_numbers(&mut text, values.as_slice())?;
    text.push(b'\n')?;
    Ok(text)
}
