ghost use Rattle.std.specs.Prelude.{◌≡◌, ◌∷◌, map, pos, replicate, IfOk};
ghost use Rattle.chaos_letter.specs.declared.letter.Letter.{Letter as ALetter};
ghost use Rattle.fd_program.specs.Stores.{place_of};
ghost use Rattle.fd_program.specs.Texts.{line_of as the_line};
ghost use Rattle.chaos_print.specs.Printing.{filled_by_rows, filled_all, print_text};

use crate::rows::at;
use chaos_letter::Letter;
use fd_data::line_of;
use fd_program::{ArrayFacts, ArrayList, array_at};
use fd_words::{Bytes, Memory, Numbers};
use std::alloc::Global;

/// The place of an element in a list of all.
fn place(element: i64) -> u64
    ensures { result ≡ place_of element }
{
    if element < 1 { 0 } else { (element - 1) as u64 }
}

/// Puts the value of each row at its element.
fn fill(values: &mut Numbers, rows: &[i64])
    ensures { values.new ≡ filled_by_rows values.old rows.now }
{
    for k in 0..rows.len() / 2 {
        let element = at(rows, 2 * k);
        let value = at(rows, 2 * k + 1);
        values.set(place(element), value);
    }
}

/// All values of an array: a node's own rows are put in first, then those of the letters in order.
fn values_of(
    alloc: Global,
    extent: u64,
    own: &Numbers,
    letters: &[Letter],
) -> Result<Numbers, Memory>
    ensures { IfOk result (λ values. values ≡ filled_all (filled_by_rows (replicate extent (pos 0)) own.now)
        (map (λ (x : ALetter). x.numbers) letters.now)) }
{
    let mut values = Numbers::zeros(alloc, extent)?;
    fill(&mut values, own.as_slice());
    'letters: for letter in letters {
        fill(&mut values, letter.numbers.as_slice());
    }
    Ok(values)
}

/// The line of an array from the rows of all nodes.
fn line_from(
    alloc: Global,
    facts: &ArrayFacts,
    own: &Numbers,
    letters: &[Letter],
) -> Result<Bytes, Memory>
    ensures { IfOk result (λ line. line ≡ the_line facts.now.name (filled_all (replicate facts.now.extent (pos 0))
        (own.now ∷ map (λ (x : ALetter). x.numbers) letters.now))) }
{
    let values = values_of(alloc, facts.extent, own, letters)?;
    line_of(alloc, &facts.name, &values)
}

/// What node `me` writes of an array from its own rows and the letters that it took: node 0 the line, and
/// all others nothing. It fails where memory is out.
pub fn print_line(
    alloc: Global,
    arrays: &ArrayList,
    me: u32,
    array: u32,
    own: &Numbers,
    got: &[Letter],
) -> Result<Bytes, Memory>
    ensures { IfOk result (λ text. text ≡ print_text arrays.now me array own.now got.now) }
{
    if me == 0 {
        line_from(alloc, &array_at(arrays.as_slice(), array), own, got)
    } else {
        Ok(Bytes::new(alloc))
    }
}
