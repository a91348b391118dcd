ghost use Rattle.std.specs.Prelude.{◌≡◌, ◌++◌, ◌≤◌, ◌^◌, ◌∷◌, codes, decimal, map, IfOk, OnOk};
ghost use Rattle.std.specs.Fmt.{signed_decimal};
ghost use Rattle.std.specs.List.{flat_map};
ghost use Rattle.chaos_bins.specs.Bins.{bin_line};
ghost use Rattle.chaos_bins.specs.Lines.{lines_from};
ghost use Rattle.append_node.specs.Keys.{pair_of};

use crate::pairs::{SortedPairs, value_in};
use fd_words::{Bytes, Memory};
use itoa::Buffer;
use std::alloc::Global;

/// Appends a blank and a number.
fn append_value(text: &mut Bytes, value: i64) -> Result<(), Memory>
    ensures { OnOk result (text.new ≡ text.old ++ 32 ∷ signed_decimal value) }
{
    let mut buffer = Buffer::new();
    text.push(b' ')?;
    text.append(buffer.format(value).as_bytes())
}

/// Appends the values of pairs, each after a blank.
fn append_values(text: &mut Bytes, keys: &[u128]) -> Result<(), Memory>
    ensures { OnOk result (text.new ≡ text.old ++ flat_map (λ k. 32 ∷ signed_decimal (pair_of k).1) keys.now) }
{
    for key in keys {
        append_value(text, value_in(*key))?;
    }
    Ok(())
}

/// Appends `bin ` and the bin.
fn append_bin(text: &mut Bytes, bin: u32) -> Result<(), Memory>
    ensures { OnOk result (text.new ≡ text.old ++ codes "bin " ++ decimal bin) }
{
    let mut buffer = Buffer::new();
    text.append(b"bin ")?;
    text.append(buffer.format(bin).as_bytes())
}

/// Appends the line of a bin with the values of these pairs.
fn append_line(text: &mut Bytes, bin: u32, keys: &[u128]) -> Result<(), Memory>
    ensures { OnOk result (text.new ≡ text.old ++ bin_line bin (map (λ k. (pair_of k).1) keys.now)) }
{
    append_bin(text, bin)?;
    text.push(b':')?;
    append_values(text, keys)?;
    text.push(b'\n')?;
    Ok(())
}

/// The lines of the bins 1 to `bins`.
pub fn lines(alloc: Global, bins: u32, pairs: &SortedPairs) -> Result<Bytes, Memory>
    requires { bins ≤ 2 ^ 16 }
    ensures { IfOk result (λ text. text ≡ lines_from bins pairs.now) }
{
    let mut text = Bytes::new(alloc);
    let mut from = pairs.through(0);
    for bin in 0..bins {
        let to = pairs.through(bin + 1);
        append_line(&mut text, bin + 1, pairs.between(from, to))?;
        from = to;
    }
    Ok(text)
}
