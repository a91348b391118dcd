ghost use Rattle.std.specs.Prelude.{◌≡◌, ◌++◌, ◌≤◌, length, map, fold, IfOk, OnOk};
ghost use Rattle.fd_program.specs.Loops.{changed, write_of, writes_in, written};
ghost use Rattle.fd_meaning.specs.Changes.{write_of_change, writes_of_changes};

use crate::change::{Change, Changes, change_of};
use crate::elements::{count, element, place};
use crate::uses::uses;
use fd_program::{ArrayFacts, CheckedBody, LoopTurn, Site, Store, Use};
use fd_words::{Combine, Memory, Numbers};
use std::alloc::Global;

/// Appends the changes of an iteration.
fn add_changes(
    changes: &mut Changes,
    store: &Store,
    uses: &[Use],
    terms: &Numbers,
    i: i64,
    body: &[CheckedBody],
) -> Result<(), Memory>
    ensures { OnOk result (writes_of_changes changes.new ≡ writes_of_changes changes.old ++ map (write_of terms.now store.now i uses.now)
        body.now) }
{
    for statement in body {
        changes.push(change_of(store, uses, terms, i, statement))?;
    }
    Ok(())
}

/// The changes of these iterations; every value is read in the store before the loop.
pub fn changes_in(
    alloc: Global,
    arrays: &[ArrayFacts],
    site: &Site,
    turn: &LoopTurn,
    store: &Store,
    iterations: &[i64],
) -> Result<Changes, Memory>
    requires { length site.now.references ≤ 64 }
    ensures { IfOk result (λ list. writes_of_changes list ≡ writes_in arrays.now site.now turn.now store.now iterations.now) }
{
    let mut list = Changes::new(alloc);
    for i in iterations {
        let used = uses(alloc, arrays, site, turn, store, *i)?;
        let body = site.body.as_slice();
        add_changes(&mut list, store, used.as_slice(), &turn.terms, *i, body)?;
    }
    Ok(list)
}

/// A value in place of the old one, or combined with it.
fn new_value(operator: Option<Combine>, old: i64, value: i64) -> i64
    ensures { result ≡ changed operator old value }
{
    match operator {
        Some(operator) => operator.apply(old, value),
        None => value,
    }
}

fn make(store: &mut Store, change: &Change)
    ensures { store.new ≡ written store.old (write_of_change change.now) }
{
    if change.subscript <= i128::from(count(store, change.array)) {
        let old = element(store, change.array, change.subscript);
        store.set(
            u64::from(change.array),
            place(change.subscript),
            new_value(change.operator, old, change.value),
        );
    }
}

/// Makes these changes, one after another.
pub fn make_all(store: &mut Store, changes: &[Change])
    ensures { store.new ≡ fold written store.old (writes_of_changes changes.now) }
{
    for change in changes {
        make(store, change);
    }
}
