ghost use Rattle.std.specs.Prelude.{◌≡◌, ◌++◌, OnOk, IfOk};
ghost use Rattle.std.specs.Option.{option_to_list};
ghost use Rattle.chaos_sched.specs.Scheduled.{asked_item, item_in, asked_items, asked_by};

use crate::Item;
use crate::in_order::put_in_order;
use fd_words::Memory;
use std::alloc::Global;

/// The items that another node asks for in rows that begin with `number`; faulty rows are passed over.
pub fn asked(alloc: Global, rows: &[i64], number: u32) -> Result<Vec<Item>, Memory>
    ensures { IfOk result (λ items. items.items ≡ asked_by number rows.now) }
{
    let mut items = read_rows(alloc, rows, number)?;
    put_in_order(&mut items);
    Ok(items)
}

fn read_rows(alloc: Global, rows: &[i64], number: u32) -> Result<Vec<Item>, Memory>
    ensures { IfOk result (λ items. items.items ≡ asked_items number rows.now) }
{
    let mut items = Vec::new(alloc);
    for at in 0..rows.len() / 4 {
        let item = first_item(&rows[4 * at..], number);
        note(&mut items, item)?;
    }
    Ok(items)
}

/// The item that the first row names, none where the row doesn't begin with `number` or is faulty.
fn first_item(rows: &[i64], number: u32) -> Option<Item>
    ensures { result ≡ item_in number rows.now }
{
    match rows {
        [first, array, element, local, ..] if *first == i64::from(number) => {
            item_at(*array, *element, *local)
        }
        _ => None,
    }
}

fn note(items: &mut Vec<Item>, item: Option<Item>) -> Result<(), Memory>
    ensures { OnOk result (items.new.items ≡ items.old.items ++ option_to_list item) }
{
    if let Some(item) = item {
        items.push(item)?;
    }
    Ok(())
}

/// The item that a row names, none where a number is out of range.
fn item_at(array: i64, element: i64, local: i64) -> Option<Item>
    ensures { result ≡ asked_item array element local }
{
    if array < 0 || array > i64::from(u32::MAX) || element < 1 || local < 0 {
        return None;
    }
    Some(Item {
        array: array as u32,
        element: element as u64,
        local: local as u64,
        slot: 0,
    })
}
