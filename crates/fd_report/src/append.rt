ghost use Rattle.std.specs.Prelude.{◌≡◌, ◌++◌, OnOk};

use fd_words::{Bytes, Memory};
use itoa::{Buffer, Integer};

/// Appends some words and a number in decimals.
pub fn append_number<I: Integer>(text: &mut Bytes, words: &[u8], value: I) -> Result<(), Memory>
    ensures { OnOk result (text.new ≡ (text.old ++ words.now) ++ I.text value) }
{
    let mut buffer = Buffer::new();
    text.append(words)?;
    text.append(buffer.format(value).as_bytes())
}
