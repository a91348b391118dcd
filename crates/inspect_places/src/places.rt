ghost use Rattle.std.specs.Prelude.{◌≡◌, ◌++◌, ◌<◌, length, map, pos, replicate, IfOk, OnOk};
ghost use Rattle.std.specs.List.{slice_index_or};
ghost use Rattle.fd_words.specs.Lists.{list_at};
ghost use Rattle.chaos_deref.specs.Asking.{owner_read, local_read};
ghost use Rattle.chaos_dist.specs.Homes.{natural as natural_of};
ghost use Rattle.chaos_table.specs.Pages.{pairs_in};
ghost use Rattle.inspect_places.specs.Dealing.{draws, drawn_after, pair_at, pair_drawn};
ghost use Rattle.inspect_places.specs.Telling.{page_in, pair_row, place_told as place_told_of, told_all, told_of};

use crate::asks::natural;
use crate::dealing::draw;
use chaos_dist::MOST_NODES;
use fd_words::{Memory, NumberLists, Numbers, Place, Places};
use std::alloc::Global;

/// The most decompositions that a program can have.
const MOST_LAYOUTS: usize = 128;

/// For each decomposition the places of its wanted elements, two numbers each.
pub(crate) fn tell_all(
    alloc: Global,
    answers: &NumberLists,
    wanted: &[Numbers],
) -> Result<NumberLists, Memory>
    ensures { IfOk result (λ lists. lists ≡ told_all answers.now (replicate 16 0) wanted.now) }
{
    let mut drawn = [0u64; MOST_NODES];
    let mut lists = NumberLists::new(alloc);
    for list in wanted {
        lists.push(tell(alloc, answers, &mut drawn, list.as_slice())?)?;
    }
    Ok(lists)
}

fn tell(
    alloc: Global,
    answers: &NumberLists,
    drawn: &mut [u64],
    wanted: &[i64],
) -> Result<Numbers, Memory>
    ensures told { IfOk result (λ numbers. numbers ≡ told_of answers.now drawn.old wanted.now) }
    ensures drawn { OnOk result (drawn.new ≡ drawn_after answers.now drawn.old (map page_in (pairs_in wanted.now))) }
{
    let mut numbers = Numbers::new(alloc);
    for i in 0..wanted.len() / 2 {
        tell_at(answers, drawn, wanted, 2 * i + 1, &mut numbers)?;
    }
    Ok(numbers)
}

/// Notes the place of a wanted element, whose page stands at a place of the list.
fn tell_at(
    answers: &NumberLists,
    drawn: &mut [u64],
    wanted: &[i64],
    at: usize,
    numbers: &mut Numbers,
) -> Result<(), Memory>
    requires { at < length wanted.now }
    ensures told { OnOk result (numbers.new ≡ numbers.old
        ++ pair_row (pair_at (list_at answers.now (natural_of (slice_index_or wanted.now at (pos 0))))
        (slice_index_or drawn.old (natural_of (slice_index_or wanted.now at (pos 0))) 0))) }
    ensures drawn { OnOk result (drawn.new ≡ pair_drawn answers.now drawn.old (natural_of (slice_index_or wanted.now at (pos 0)))) }
{
    append(numbers, draw(answers, drawn, natural(wanted[at]) as usize))
}

fn append(numbers: &mut Numbers, pair: (i64, i64)) -> Result<(), Memory>
    ensures { OnOk result (numbers.new ≡ numbers.old ++ pair_row pair) }
{
    numbers.push(pair.0)?;
    numbers.push(pair.1)
}

fn owner(number: i64) -> u32
    ensures { result ≡ owner_read (Some number) }
{
    u32::try_from(number).unwrap_or(0)
}

fn local(number: i64) -> u64
    ensures { result ≡ local_read (Some number) }
{
    u64::try_from(number).unwrap_or(0)
}

fn place_told(pair: (i64, i64)) -> Place
    ensures { result ≡ place_told_of pair }
{
    Place {
        owner: owner(pair.0),
        local: local(pair.1),
    }
}

/// The places of references of these decompositions; `told` has for each of them the places in order.
pub(crate) fn place_all(
    alloc: Global,
    told: &NumberLists,
    decompositions: &[u32],
) -> Result<Places, Memory>
    ensures { IfOk result (λ places. places ≡ map place_told_of (draws told.now (replicate 128 0) decompositions.now)) }
{
    let mut drawn = [0u64; MOST_LAYOUTS];
    let mut places = Places::new(alloc);
    for decomposition in decompositions {
        places.push(place_told(draw(told, &mut drawn, *decomposition as usize)))?;
    }
    Ok(places)
}
