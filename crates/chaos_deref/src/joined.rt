ghost use Rattle.std.specs.Prelude.{◌≡◌, ◌≤◌, ◌<◌, All, IfOk};
ghost use Rattle.fd_words.specs.Lists.{list_at};
ghost use Rattle.chaos_deref.specs.Asking.{IsElement, owner_read, local_read, place_read, joined};

use crate::asks::page_at;
use chaos_dist::MOST_NODES;
use fd_words::{Memory, NumberLists, Numbers, Place, Places};
use std::alloc::Global;

/// The places in the order of `wanted`: list p of `answers` has what page p answers to its asks.
pub fn join_answers(
    alloc: Global,
    extent: u64,
    nodes: u32,
    wanted: &Numbers,
    answers: &NumberLists,
) -> Result<Places, Memory>
    requires large { extent ≤ 4294967296 }
    requires some { 1 ≤ nodes }
    requires few { nodes ≤ 16 }
    requires elements { All (IsElement extent) wanted.now }
    ensures { IfOk result (λ places. places ≡ joined extent nodes wanted.now answers.now) }
{
    let mut taken = [0u64; MOST_NODES];
    let mut places = Places::new(alloc);
    let all = wanted.as_slice();
    for i in 0..all.len() {
        let page = page_at(extent, nodes, all, i);
        let rank = taken[page as usize];
        places.push(place(answers, page, rank))?;
        taken[page as usize] = rank + 1;
    }
    Ok(places)
}

/// The answer at a place of a page's answers.
fn place(answers: &NumberLists, page: u32, rank: u64) -> Place
    requires { rank < 4611686018427387904 }
    ensures { result ≡ place_read (list_at answers.now page) rank }
{
    match answers.get(u64::from(page)) {
        Some(list) => read(list, rank),
        None => Place { owner: 0, local: 0 },
    }
}

fn read(list: &Numbers, rank: u64) -> Place
    requires { rank < 4611686018427387904 }
    ensures { result ≡ place_read list.now rank }
{
    Place {
        owner: owner(list.get(2 * rank)),
        local: local(list.get(2 * rank + 1)),
    }
}

fn owner(number: Option<i64>) -> u32
    ensures { result ≡ owner_read number }
{
    match number {
        Some(number) => u32::try_from(number).unwrap_or(0),
        None => 0,
    }
}

fn local(number: Option<i64>) -> u64
    ensures { result ≡ local_read number }
{
    match number {
        Some(number) => u64::try_from(number).unwrap_or(0),
        None => 0,
    }
}
