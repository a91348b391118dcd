ghost use Rattle.std.specs.Prelude.{◌≡◌, ◌++◌, IfOk, OnOk};
ghost use Rattle.fd_program.specs.Stores.{array_at};
ghost use Rattle.fd_program.specs.Texts.{array_of, refusal_line as the_refusal_line, refusal_line_of, refused_loop, refused_range};
ghost use Rattle.fd_program.specs.Texts.{refused_subscript};
ghost use Rattle.fd_program.specs.Trace.{site_at};

use crate::append::append_number;
use fd_program::{Checked, Reference, Refused};
use fd_words::{Bytes, Memory, Name, Offence};
use std::alloc::Global;

/// Appends which loop and which iteration.
fn append_loop(text: &mut Bytes, line: u32, iteration: i64) -> Result<(), Memory>
    ensures { OnOk result (text.new ≡ text.old ++ refused_loop line iteration) }
{
    append_number(text, b"refused: line ", line)?;
    append_number(text, b", iteration ", iteration)
}

/// Appends which subscript of which array.
fn append_subscript(text: &mut Bytes, subscript: i128, name: &Name) -> Result<(), Memory>
    ensures { OnOk result (text.new ≡ text.old ++ refused_subscript subscript name.now) }
{
    append_number(text, b": subscript ", subscript)?;
    text.append(b" of ")?;
    text.append(name.as_slice())
}

/// Appends the elements that the array has.
fn append_range(text: &mut Bytes, extent: u64) -> Result<(), Memory>
    ensures { OnOk result (text.new ≡ text.old ++ refused_range extent) }
{
    append_number(text, b" is outside 1 to ", extent)?;
    text.push(b'\n')
}

/// The parts of a refusal line.
fn line_of_parts(
    alloc: Global,
    line: u32,
    offence: &Offence,
    name: &Name,
    extent: u64,
) -> Result<Bytes, Memory>
    ensures { IfOk result (λ bytes. bytes ≡ refusal_line_of line offence.now name.now extent) }
{
    let mut text = Bytes::new(alloc);
    append_loop(&mut text, line, offence.iteration)?;
    append_subscript(&mut text, offence.subscript, name)?;
    append_range(&mut text, extent)?;
    Ok(text)
}

/// The array of the reference with this number, from 1.
fn array_number(references: &[Reference], number: u32) -> u32
    ensures { result ≡ array_of references.now number }
{
    if number == 0 {
        return 0;
    }
    match references.get(number as usize - 1) {
        Some(reference) => reference.array,
        None => 0,
    }
}

/// The line of the source where a FORALL stands.
fn site_line(checked: &Checked, site: u32) -> u32
    ensures { result ≡ (site_at checked.now.sites site).at.line }
{
    match checked.sites.get(site as usize) {
        Some(found) => found.at.line,
        None => 0,
    }
}

/// The array of the reference that is refused.
fn refused_array(checked: &Checked, refused: &Refused) -> u32
    ensures { result ≡ array_of (site_at checked.now.sites refused.now.site).references refused.now.offence.reference }
{
    match checked.sites.get(refused.site as usize) {
        Some(found) => array_number(found.references.as_slice(), refused.offence.reference),
        None => 0,
    }
}

/// The line that says why a run was refused: the line of the FORALL, the iteration, the subscript, and the
/// array with its range.
pub fn refusal_line(alloc: Global, checked: &Checked, refused: &Refused) -> Result<Bytes, Memory>
    ensures { IfOk result (λ line. line ≡ the_refusal_line checked.now refused.now) }
{
    let line = site_line(checked, refused.site);
    let array = refused_array(checked, refused);
    match checked.arrays.get(array as usize) {
        Some(facts) => line_of_parts(alloc, line, &refused.offence, &facts.name, facts.extent),
        None => line_of_parts(alloc, line, &refused.offence, &Name::new(), 0),
    }
}
