ghost use Rattle.std.specs.Prelude.{◌≡◌, ◌≤◌, length, IfOk};
ghost use Rattle.fd_program.specs.Uses.{index_value as index_value_of, use_at, uses_of};

use crate::elements::{element, number};
use fd_program::{ArrayFacts, LoopTurn, Site, Store, Use, Uses, gives, subscript, use_by};
use fd_words::{Memory, Role};
use std::alloc::Global;

/// The element that an index reference gives.
fn index_value(arrays: &[ArrayFacts], store: &Store, used: Use) -> Option<i64>
    ensures { result ≡ index_value_of arrays.now store.now used }
{
    if gives(arrays, used) {
        Some(element(store, used.array, used.subscript))
    } else {
        None
    }
}

/// The references at iteration `i`, in the order of their numbers.
pub fn uses(
    alloc: Global,
    arrays: &[ArrayFacts],
    site: &Site,
    turn: &LoopTurn,
    store: &Store,
    i: i64,
) -> Result<Uses, Memory>
    requires { length site.now.references ≤ 64 }
    ensures { IfOk result (λ list. list ≡ uses_of arrays.now site.now turn.now store.now i) }
{
    let mut list = Uses::new(alloc);
    let mut before = None;
    let mut number_before: u32 = 0;
    let references = site.references.as_slice();
    for reference in references {
        let add = number(&turn.adds, u64::from(number_before));
        let next = use_by(
            reference,
            i,
            number_before + 1,
            subscript(&reference.subscript, i, add, before),
        );
        list.push(next)?;
        before = index_value(arrays, store, next);
        number_before += 1;
    }
    Ok(list)
}

/// The use of the reference with this number, from 1.
pub fn numbered(uses: &[Use], number: u32) -> Use
    ensures { result ≡ use_at uses.now number }
{
    let none = Use {
        iteration: 0,
        number: 0,
        role: Role::Read,
        array: 0,
        stamp: 0,
        plain: false,
        defined: false,
        subscript: 0,
    };
    if number == 0 {
        none
    } else {
        uses.get(number as usize - 1).copied().unwrap_or(none)
    }
}
