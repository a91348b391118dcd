ghost use Rattle.std.specs.Prelude.{◌≡◌, length, map, neg_ℤ, slice_get, IfOk, Some};
ghost use Rattle.fd_program.specs.Stores.{number_at};
ghost use Rattle.fd_words.specs.Value.{wrapped};
ghost use Rattle.fd_words.specs.Lists.{list_at};
ghost use Rattle.chaos_execute.specs.Columns.{column_of, paired, read_column as read_column_of, seated_column, value_in};

use crate::block::{Block, behind};
use crate::pool::Pool;
use crate::seat::{Seat, find_seat};
use chaos_sched::LocalRef;
use fd_program::CheckedExpr;
use fd_words::{Arith, Memory, NumberLists, Numbers, negated};

/// What expressions read: the node's pieces and ghosts, through the seats of references, and the numbers
/// that the turn gives.
#[derive(Clone, Copy)]
pub struct Sources<'a> {
    pub pieces: &'a NumberLists,
    pub ghosts: &'a NumberLists,
    pub terms: &'a Numbers,
    pub seats: &'a [Seat],
}

fn term(terms: &Numbers, place: u32) -> i64
    ensures { result ≡ number_at terms.now place }
{
    terms.get(u64::from(place)).unwrap_or(0)
}

/// So many times one value as there are iterations.
fn filled(value: &i64, iterations: &[i64], pool: &mut Pool) -> Result<Vec<i64>, Memory>
    ensures { IfOk result (λ c. c.items ≡ map (λ _. value.now) iterations.now) }
{
    let mut column = pool.lend();
    for _i in iterations {
        column.push(*value)?;
    }
    Ok(column)
}

fn copied(iterations: &[i64], pool: &mut Pool) -> Result<Vec<i64>, Memory>
    ensures { IfOk result (λ c. c.items ≡ iterations.now) }
{
    let mut column = pool.lend();
    column.extend_from_slice(iterations)?;
    Ok(column)
}

/// What a reference reads at each iteration of a block.
fn read_column(
    sources: &Sources,
    block: &Block,
    number: u32,
    pool: &mut Pool,
) -> Result<Vec<i64>, Memory>
    ensures { IfOk result (λ c. c.items ≡ read_column_of sources.now.pieces.now sources.now.ghosts.now sources.now.seats.now
        block.now.width block.now.iterations.now block.now.row.now number) }
{
    match find_seat(sources.seats, number) {
        Some(seat) => read_seated(
            numbers_of(sources.pieces, seat.array),
            numbers_of(sources.ghosts, seat.array),
            seat.at,
            block,
            pool,
        ),
        None => filled(&0, block.iterations, pool),
    }
}

fn read_seated(
    part: &[i64],
    ghosts: &[i64],
    at: u64,
    block: &Block,
    pool: &mut Pool,
) -> Result<Vec<i64>, Memory>
    ensures { IfOk result (λ c. c.items ≡ seated_column part.now ghosts.now at block.now.width block.now.iterations.now block.now.row.now) }
{
    let mut column = pool.lend();
    let mut left = block.row;
    for _i in block.iterations {
        column.push(read_at(part, ghosts, left, at))?;
        left = behind(left, block.width);
    }
    Ok(column)
}

fn read_at(part: &[i64], ghosts: &[i64], row: &[LocalRef], at: u64) -> i64
    ensures { result ≡ value_in part.now ghosts.now (slice_get row.now at) }
{
    match row.get(at as usize) {
        Some(place) => value_at_place(part, ghosts, *place),
        None => 0,
    }
}

fn value_at_place(part: &[i64], ghosts: &[i64], place: LocalRef) -> i64
    ensures { result ≡ value_in part.now ghosts.now (Some place) }
{
    match place {
        LocalRef::Here(local) => part.get(local as usize).copied().unwrap_or(0),
        LocalRef::Ghost(slot) => ghosts.get(slot as usize).copied().unwrap_or(0),
    }
}

fn numbers_of(lists: &NumberLists, array: u32) -> &[i64]
    ensures { result.now ≡ list_at lists.now array }
{
    match lists.get(u64::from(array)) {
        Some(numbers) => numbers.as_slice(),
        None => &[],
    }
}

fn negate_all(column: &mut [i64])
    ensures { column.new ≡ map (λ a. wrapped (neg_ℤ a)) column.old }
{
    for at in 0..column.len() {
        column[at] = negated(column[at]);
    }
}

fn combine_all(op: Arith, left: &mut [i64], right: &[i64])
    requires { length left.old ≡ length right.now }
    ensures { left.new ≡ paired op left.old right.now }
{
    for at in 0..left.len() {
        left[at] = op.apply(left[at], right[at]);
    }
}

fn negated_all(column: Vec<i64>) -> Vec<i64>
    ensures { result.items ≡ map (λ a. wrapped (neg_ℤ a)) column.items }
{
    let mut column = column;
    negate_all(&mut column);
    column
}

fn combined_all(op: Arith, left: Vec<i64>, right: &[i64]) -> Vec<i64>
    requires { length left.items ≡ length right.now }
    ensures { result.items ≡ paired op left.items right.now }
{
    let mut left = left;
    combine_all(op, &mut left, right);
    left
}

/// The values of an expression at each iteration of a block.
pub fn column(
    expr: &CheckedExpr,
    sources: &Sources,
    block: &Block,
    pool: &mut Pool,
) -> Result<Vec<i64>, Memory>
    ensures { IfOk result (λ c. c.items ≡ column_of sources.now.pieces.now sources.now.ghosts.now sources.now.terms.now
        sources.now.seats.now
        block.now.width block.now.iterations.now block.now.row.now expr.now) }
{
    match expr {
        CheckedExpr::Number(value) => filled(value, block.iterations, pool),
        CheckedExpr::Index => copied(block.iterations, pool),
        CheckedExpr::Term(place) => {
            let value = term(sources.terms, *place);
            filled(&value, block.iterations, pool)
        }
        CheckedExpr::Read(number) => read_column(sources, block, *number, pool),
        CheckedExpr::Negate(inner) => {
            let out = column(inner.get(), sources, block, pool)?;
            Ok(negated_all(out))
        }
        CheckedExpr::Binary { op, left, right } => {
            let out = column(left.get(), sources, block, pool)?;
            let other = column(right.get(), sources, block, pool)?;
            let both = combined_all(*op, out, other.as_slice());
            pool.take_back(other)?;
            Ok(both)
        }
    }
}
