//! The parts of a node's elements, as it tells them, and the lines that node 0 writes of all.
ghost use Rattle.std.specs.Prelude.{◌≡◌, ◌<◌, ◌^◌, ◌++◌, map, pos, replicate, OnOk, IfOk};
ghost use Rattle.chaos_dist.specs.Counting.{below};
ghost use Rattle.chaos_dist.specs.Layout.{element_of, length_of};
ghost use Rattle.chaos_dist.specs.declared.shape.Shape.TheVariants.{Block};
ghost use Rattle.bisect_node.specs.Printing.{lines_of, lines_told, marked, marked_all, marked_pieces, number_line, rows_on};

use crate::numbers::number_at;
use crate::pieces::Piece;
use chaos_dist::{Regular, Shape};
use chaos_letter::Letter;
use fd_words::{Bytes, Memory, Numbers};
use itoa::Buffer;
use std::alloc::Global;

/// Puts a part at the place of an element; nothing where there is no such element.
fn mark(layout: Regular, parts: &mut Numbers, element: i64, part: u32)
    requires { layout.shape ≡ Block }
    ensures { parts.new ≡ marked layout.extent layout.nodes part parts.old element }
{
    if 1 <= element && i128::from(element) <= i128::from(layout.extent) {
        parts.set(layout.local(element as u64), i64::from(part));
    }
}

/// Puts a part at the places of elements.
fn mark_all(layout: Regular, parts: &mut Numbers, elements: &[i64], part: u32)
    requires { layout.shape ≡ Block }
    ensures { parts.new ≡ marked_all layout.extent layout.nodes part parts.old elements.now }
{
    for element in elements {
        mark(layout, parts, *element, part);
    }
}

/// The parts of a node's elements, in their order: each the first part of its region.
fn parts_of(alloc: Global, layout: Regular, me: u32, pieces: &[Piece]) -> Result<Numbers, Memory>
    requires shape { layout.shape ≡ Block }
    requires me { me < layout.nodes }
    ensures { IfOk result (λ parts. parts ≡ marked_pieces layout.extent layout.nodes
        (replicate (length_of Block layout.extent layout.nodes me) (pos 0)) pieces.now) }
{
    let mut parts = Numbers::zeros(alloc, layout.length_on(me))?;
    for piece in pieces {
        mark_all(layout, &mut parts, piece.elements.as_slice(), piece.first);
    }
    Ok(parts)
}

/// A node's elements, ascending.
pub fn elements_of(alloc: Global, layout: Regular, me: u32) -> Result<Numbers, Memory>
    requires shape { layout.shape ≡ Block }
    requires me { me < layout.nodes }
    requires few { layout.extent < 2 ^ 63 }
    ensures { IfOk result (λ elements. elements ≡ map (λ k. pos (element_of Block layout.extent layout.nodes me k))
        (below (length_of Block layout.extent layout.nodes me))) }
{
    let mut elements = Numbers::new(alloc);
    for k in 0..layout.length_on(me) {
        elements.push(layout.global_of(me, k) as i64)?;
    }
    Ok(elements)
}

/// A node's elements, ascending, each with its part.
pub fn rows_of(alloc: Global, layout: Regular, me: u32, pieces: &[Piece]) -> Result<Numbers, Memory>
    requires shape { layout.shape ≡ Block }
    requires me { me < layout.nodes }
    requires few { layout.extent < 2 ^ 63 }
    ensures { IfOk result (λ rows. rows ≡ rows_on layout.extent layout.nodes me pieces.now) }
{
    let parts = parts_of(alloc, layout, me, pieces)?;
    let mut rows = Numbers::new(alloc);
    for k in 0..layout.length_on(me) {
        rows.push(layout.global_of(me, k) as i64)?;
        rows.push(number_at(&parts, k))?;
    }
    Ok(rows)
}

/// Appends a number and a line end.
fn append_line(text: &mut Bytes, number: i64) -> Result<(), Memory>
    ensures { OnOk result (text.new ≡ text.old ++ number_line number) }
{
    let mut buffer = Buffer::new();
    text.append(buffer.format(number).as_bytes())?;
    text.push(b'\n')
}

/// Appends each second number, on a line.
fn append_lines(text: &mut Bytes, rows: &[i64]) -> Result<(), Memory>
    ensures { OnOk result (text.new ≡ text.old ++ lines_of rows.now) }
{
    for (k, number) in rows.iter().enumerate() {
        if k % 2 == 1 {
            append_line(text, *number)?;
        }
    }
    Ok(())
}

/// The lines of a node's own rows.
pub fn own_text(alloc: Global, own: &Numbers) -> Result<Bytes, Memory>
    ensures { IfOk result (λ text. text ≡ lines_of own.now) }
{
    let mut text = Bytes::new(alloc);
    append_lines(&mut text, own.as_slice())?;
    Ok(text)
}

/// The lines of the rows of letters.
pub fn told_text(alloc: Global, got: &[Letter]) -> Result<Bytes, Memory>
    ensures { IfOk result (λ text. text ≡ lines_told got.now) }
{
    let mut text = Bytes::new(alloc);
    for letter in got {
        append_lines(&mut text, letter.numbers.as_slice())?;
    }
    Ok(text)
}
