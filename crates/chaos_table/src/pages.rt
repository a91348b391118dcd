ghost use Rattle.std.specs.Prelude.{◌≡◌, ◌≤◌, ◌<◌, ◌*◌, ◌==◌, ℕ, All, EachIndex, slice_index, slice_get, length, OnOk, IfOk, IfSome};
ghost use Rattle.fd_words.specs.Lists.{list_at};
ghost use Rattle.chaos_table.specs.Pages.{page_given, look_in, places_of, earlier, sound_count};

use crate::owners::owners_given;
use crate::width::first;
use chaos_dist::MOST_NODES;
use fd_words::{Memory, NumberLists, Place, Places};
use std::alloc::Global;

/// A page: the first element that it covers, and the places of its elements, ascending.
#[derive(Debug, Drop)]
pub struct Pages {
    pub first: u64,
    pub places: Places,
}

impl Pages {
    /// A page from all pairs of its elements and their owners, and from the counts of the pages before it:
    /// list j of `counts` is page j's. A count that is missing, below 0 or over the extent counts as 0.
    /// Pairs are taken as `page_counts` takes them.
    pub fn install(
        alloc: Global,
        extent: u64,
        nodes: u32,
        page: u32,
        pairs: &NumberLists,
        counts: &NumberLists,
    ) -> Result<Pages, Memory>
        requires small { 1 ≤ extent }
        requires large { extent ≤ 4294967296 }
        requires some { 1 ≤ nodes }
        requires few { nodes ≤ 16 }
        requires page { page < nodes }
        ensures { IfOk result (λ p. p ≡ page_given extent nodes page pairs.now counts.now) }
    {
        let owners = owners_given(alloc, extent, nodes, page, pairs)?;
        let first = first(extent, nodes, page);
        let before = all_earlier(extent, counts, page);
        let places = placed(alloc, owners.as_slice(), before)?;
        Ok(Pages { first, places })
    }

    /// The place of element `g`; none exactly where it isn't on this page.
    pub fn look(&self, g: u64) -> Option<Place>
        ensures { result ≡ look_in self.now g }
    {
        let at = g.checked_sub(self.first)?;
        self.places.get(at as usize).copied()
    }
}

/// The places of elements with these owners, each behind so many before it.
fn placed(alloc: Global, owners: &[u32], before: [u64; MOST_NODES]) -> Result<Places, Memory>
    requires nodes { All (λ o. o < 16) owners.now }
    requires short { length owners.now ≤ 4294967296 }
    requires small { EachIndex before (λ node. slice_index before node ≤ 68719476736) }
    ensures { IfOk result (λ places. places ≡ places_of (λ node. slice_index before node) owners.now) }
{
    let mut next = before;
    let mut places = Places::new(alloc);
    for owner in owners {
        let owner = *owner;
        let node = owner as usize;
        let local = next[node];
        places.push(Place { owner, local })?;
        next[node] = local + 1;
    }
    Ok(places)
}

/// For each node how many elements it owns on the pages before this one.
fn all_earlier(extent: u64, counts: &NumberLists, page: u32) -> [u64; MOST_NODES]
    requires large { extent ≤ 4294967296 }
    requires page { page ≤ 16 }
    ensures earlier { EachIndex result (λ node. slice_index result node ≡ earlier extent counts.now page node) }
    ensures small { EachIndex result (λ node. slice_index result node ≤ 68719476736) }
{
    let mut all = [0; MOST_NODES];
    for node in 0..MOST_NODES {
        all[node] = earlier_on(extent, counts, page, node as u32);
    }
    all
}

fn earlier_on(extent: u64, counts: &NumberLists, page: u32, node: u32) -> u64
    requires large { extent ≤ 4294967296 }
    requires page { page ≤ 16 }
    ensures earlier { result ≡ earlier extent counts.now page node }
    ensures small { result ≤ 68719476736 }
{
    let mut sum = 0;
    for before in 0..page {
        sum += count(extent, counts, before, node);
    }
    sum
}

/// A count as it was sent, or 0 where it can't be right.
fn count(extent: u64, counts: &NumberLists, page: u32, node: u32) -> u64
    ensures count { result ≡ sound_count extent (slice_get (list_at counts.now page) node) }
    ensures most { result ≤ extent }
{
    match counts.get(u64::from(page)) {
        Some(list) => sound(extent, list.get(u64::from(node))),
        None => 0,
    }
}

fn sound(extent: u64, count: Option<i64>) -> u64
    ensures count { result ≡ sound_count extent count }
    ensures most { result ≤ extent }
{
    match count.and_then(|count| u64::try_from(count).ok()) {
        Some(count) if count <= extent => count,
        _ => 0,
    }
}
