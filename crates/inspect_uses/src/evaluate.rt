ghost use Rattle.std.specs.Prelude.{◌≡◌, ◌≤◌, ◌+◌, if◌then◌else◌, drop, count_by, length, IfOk, None};
ghost use Rattle.fd_program.specs.Stores.{number_at};
ghost use Rattle.fd_program.specs.Uses.{gives_index, value_told};
ghost use Rattle.inspect_uses.specs.Reached.{gives_first, known_with, uses_with};

use fd_program::{ArrayFacts, LoopFacts, Use, Uses, gives, subscript, use_by};
use fd_words::{Memory, Numbers};
use std::alloc::Global;

/// The number at a place, 0 from the end on.
fn number(numbers: &Numbers, at: u64) -> i64
    ensures { result ≡ number_at numbers.now at }
{
    numbers.get(at).unwrap_or(0)
}

/// What a reference gives the one behind it; `values` are those of this and the next index references.
fn told(arrays: &[ArrayFacts], used: Use, values: &[i64], next: usize) -> Option<i64>
    ensures { result ≡ value_told arrays.now used (drop next values.now) }
{
    if gives(arrays, used) {
        values.get(next).copied()
    } else {
        None
    }
}

/// The place behind the values that a reference takes.
fn behind(arrays: &[ArrayFacts], used: Use, next: usize) -> usize
    requires { next ≤ 64 }
    ensures place { result ≡ next + (if gives_index arrays.now used then 1 else 0) }
    ensures most { result ≤ next + 1 }
{
    if gives(arrays, used) { next + 1 } else { next }
}

/// The references at iteration `i`, in the order of their numbers, where its index references give the
/// first of these values. One pass over the references.
pub fn uses(alloc: Global, facts: &LoopFacts, i: i64, values: &[i64]) -> Result<Uses, Memory>
    requires { length facts.now.site.references ≤ 64 }
    ensures { IfOk result (λ list. list ≡ uses_with facts.now i values.now) }
{
    let mut list = Uses::new(alloc);
    let mut before = None;
    let mut place: u32 = 0;
    let mut next = 0;
    let arrays = facts.arrays.as_slice();
    let references = facts.site.references.as_slice();
    for reference in references {
        let add = number(&facts.turn.adds, u64::from(place));
        let subscript = subscript(&reference.subscript, i, add, before);
        let used = use_by(reference, i, place + 1, subscript);
        list.push(used)?;
        before = told(arrays, used, values, next);
        next = behind(arrays, used, next);
        place += 1;
    }
    Ok(list)
}

/// How many of the references give the one behind them an element.
pub fn given(arrays: &[ArrayFacts], uses: &[Use]) -> usize
    ensures { result ≡ count_by (gives_index arrays.now) uses.now }
{
    uses.iter().filter(|used| gives(arrays, **used)).count()
}

/// What a reference gives the one behind it, if its subscript is plain; `firsts` are the values of this
/// and the next index references with such a subscript.
fn told_first(arrays: &[ArrayFacts], used: Use, firsts: &[i64], next: usize) -> Option<i64>
    ensures { result ≡ (if used.plain then value_told arrays.now used (drop next firsts.now) else None) }
{
    if used.plain {
        told(arrays, used, firsts, next)
    } else {
        None
    }
}

/// The place behind the values that a reference takes, if its subscript is plain.
fn behind_first(arrays: &[ArrayFacts], used: Use, next: usize) -> usize
    requires { next ≤ 64 }
    ensures place { result ≡ next + (if used.plain then (if gives_index arrays.now used then 1 else 0) else 0) }
    ensures most { result ≤ next + 1 }
{
    if used.plain {
        behind(arrays, used, next)
    } else {
        next
    }
}

/// The references at iteration `i`, in the order of their numbers, where its index references with a plain
/// subscript give the first of these values, and the others give nothing: what is behind those isn't
/// defined. One pass over the references.
pub fn known(alloc: Global, facts: &LoopFacts, i: i64, firsts: &[i64]) -> Result<Uses, Memory>
    requires { length facts.now.site.references ≤ 64 }
    ensures { IfOk result (λ list. list ≡ known_with facts.now i firsts.now) }
{
    let mut list = Uses::new(alloc);
    let mut before = None;
    let mut place: u32 = 0;
    let mut next = 0;
    let arrays = facts.arrays.as_slice();
    let references = facts.site.references.as_slice();
    for reference in references {
        let add = number(&facts.turn.adds, u64::from(place));
        let subscript = subscript(&reference.subscript, i, add, before);
        let used = use_by(reference, i, place + 1, subscript);
        list.push(used)?;
        before = told_first(arrays, used, firsts, next);
        next = behind_first(arrays, used, next);
        place += 1;
    }
    Ok(list)
}

/// How many of the references with a plain subscript give the one behind them an element.
pub fn given_first(arrays: &[ArrayFacts], uses: &[Use]) -> usize
    ensures { result ≡ count_by (gives_first arrays.now) uses.now }
{
    uses.iter()
        .filter(|used| gives(arrays, **used) && used.plain)
        .count()
}
