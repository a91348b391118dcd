ghost use Rattle.std.specs.Prelude.{◌≡◌, ◌≤◌, ◌<◌, pos, All, length, OnOk, IfOk};
ghost use Rattle.std.specs.List.{slice_index_or};
ghost use Rattle.fd_words.specs.Lists.{pushed_at};
ghost use Rattle.chaos_deref.specs.Asking.{IsElement, page_for, asks_for};

use chaos_table::page_of;
use fd_words::{Memory, NumberLists, Numbers};
use std::alloc::Global;

/// What each node is asked: list p has the wanted elements of page p in order, repeats kept.
pub fn split_asks(
    alloc: Global,
    extent: u64,
    nodes: u32,
    wanted: &Numbers,
) -> Result<NumberLists, Memory>
    requires large { extent ≤ 4294967296 }
    requires some { 1 ≤ nodes }
    requires few { nodes ≤ 16 }
    requires elements { All (IsElement extent) wanted.now }
    ensures { IfOk result (λ lists. lists ≡ asks_for extent nodes wanted.now) }
{
    let mut lists = NumberLists::empty(alloc, nodes)?;
    let all = wanted.as_slice();
    for i in 0..all.len() {
        let page = page_at(extent, nodes, all, i);
        ask(&mut lists, page, all, i)?;
    }
    Ok(lists)
}

fn ask(lists: &mut NumberLists, page: u32, wanted: &[i64], at: usize) -> Result<(), Memory>
    requires { at < length wanted.now }
    ensures { OnOk result (lists.new ≡ pushed_at lists.old page (slice_index_or wanted.now at (pos 0))) }
{
    lists.push_to(u64::from(page), wanted[at])
}

/// The page of the wanted element at a place.
pub(crate) fn page_at(extent: u64, nodes: u32, wanted: &[i64], at: usize) -> u32
    requires large { extent ≤ 4294967296 }
    requires some { 1 ≤ nodes }
    requires few { nodes ≤ 16 }
    requires elements { All (IsElement extent) wanted.now }
    requires at { at < length wanted.now }
    ensures page { result ≡ page_for extent nodes (slice_index_or wanted.now at (pos 0)) }
    ensures node { result < nodes }
{
    page_of(extent, nodes, wanted[at].unsigned_abs())
}
