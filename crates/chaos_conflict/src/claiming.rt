ghost use Rattle.std.specs.Prelude.{◌≡◌, ◌++◌, ◌==◌, map, filter, OnOk, IfOk};
ghost use Rattle.std.specs.List.{flat_map, range_with_len};
ghost use Rattle.chaos_conflict.specs.Rows.{claim_row, claims_to, row_of};

use crate::row::Row;
use crate::{Claim, Claims};
use fd_words::{Memory, NumberLists, Numbers};
use list_laws::ascend;
use std::alloc::Global;

/// What is claimed of the elements of each node: list `q` has the rows to node `q`, ascending and each once. A
/// claim whose owner is no node is left out.
pub fn claims_of(alloc: Global, claims: &Claims, nodes: u32) -> Result<NumberLists, Memory>
    ensures { IfOk result (λ lists. lists ≡ map (λ q. claims_to q claims.now) (range_with_len 0 nodes)) }
{
    let mut lists = NumberLists::new(alloc);
    for owner in 0..nodes {
        lists.push(letter_to(alloc, claims.as_slice(), owner)?)?;
    }
    Ok(lists)
}

fn letter_to(alloc: Global, claims: &[Claim], owner: u32) -> Result<Numbers, Memory>
    ensures { IfOk result (λ numbers. numbers ≡ claims_to owner claims.now) }
{
    let mut rows = chosen(alloc, claims, owner)?;
    ascend(&mut rows);
    let mut numbers = Numbers::new(alloc);
    add_rows(&mut numbers, rows.as_slice())?;
    Ok(numbers)
}

fn chosen(alloc: Global, claims: &[Claim], owner: u32) -> Result<Vec<Row>, Memory>
    ensures { IfOk result (λ rows. rows.items ≡ map row_of (filter (λ c. c.owner == owner) claims.now)) }
{
    let rows = claims
        .iter()
        .filter(|claim| claim.owner == owner)
        .map(|claim| Row {
            reference: claim.reference,
            element: claim.element,
            iteration: claim.iteration,
        })
        .collect(alloc)?;
    Ok(rows)
}

fn add_rows(numbers: &mut Numbers, rows: &[Row]) -> Result<(), Memory>
    ensures { OnOk result (numbers.new ≡ numbers.old ++ flat_map claim_row rows.now) }
{
    for row in rows {
        add_row(numbers, *row)?;
    }
    Ok(())
}

fn add_row(numbers: &mut Numbers, row: Row) -> Result<(), Memory>
    ensures { OnOk result (numbers.new ≡ numbers.old ++ claim_row row) }
{
    let three = [
        i64::from(row.reference),
        row.element.cast_signed(),
        row.iteration,
    ];
    numbers.append(three.as_slice())
}
