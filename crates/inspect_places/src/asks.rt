ghost use Rattle.std.specs.Prelude.{◌≡◌, ◌+◌, ◌<◌, [], length, pos, replicate, IfOk, OnOk};
ghost use Rattle.std.specs.List.{slice_index_or};
ghost use Rattle.chaos_dist.specs.Homes.{natural as natural_of};
ghost use Rattle.chaos_table.specs.Pages.{pairs_in};
ghost use Rattle.list_laws.specs.Rows.{appended_at, dealt_onto};
ghost use Rattle.inspect_places.specs.Telling.{ask_row, asks_onto, page_in};

use fd_words::{Memory, NumberLists, Numbers};
use std::alloc::Global;

/// The asks to each node; `wanted` has a list for each decomposition.
pub(crate) fn ask_all(alloc: Global, nodes: u32, wanted: &[Numbers]) -> Result<NumberLists, Memory>
    ensures { IfOk result (λ lists. lists ≡ asks_onto 0 (replicate nodes []) wanted.now) }
{
    let mut lists = NumberLists::empty(alloc, nodes)?;
    let mut d = 0;
    for list in wanted {
        ask(&mut lists, d, list.as_slice())?;
        d += 1;
    }
    Ok(lists)
}

fn ask(lists: &mut NumberLists, decomposition: usize, wanted: &[i64]) -> Result<(), Memory>
    ensures { OnOk result (lists.new ≡ dealt_onto page_in (ask_row decomposition) lists.old (pairs_in wanted.now)) }
{
    for i in 0..wanted.len() / 2 {
        ask_at(lists, decomposition, wanted, 2 * i)?;
    }
    Ok(())
}

/// The number, 0 where it is below.
pub(crate) fn natural(number: i64) -> u64
    ensures { result ≡ natural_of number }
{
    u64::try_from(number).unwrap_or(0)
}

fn ask_at(
    lists: &mut NumberLists,
    decomposition: usize,
    wanted: &[i64],
    at: usize,
) -> Result<(), Memory>
    requires { at + 1 < length wanted.now }
    ensures { OnOk result (lists.new ≡ appended_at lists.old (natural_of (slice_index_or wanted.now (at + 1) (pos 0)))
        (ask_row decomposition (slice_index_or wanted.now at (pos 0), slice_index_or wanted.now (at + 1) (pos 0)))) }
{
    let row = [(decomposition as u64).cast_signed(), wanted[at]];
    lists.append_to(natural(wanted[at + 1]), &row)
}
