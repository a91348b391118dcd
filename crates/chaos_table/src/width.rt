ghost use Rattle.std.specs.Prelude.{◌≡◌, ◌≤◌, ◌<◌, ◌+◌};
ghost use Rattle.chaos_dist.specs.Layout.{divided_up};
ghost use Rattle.chaos_dist.specs.Owners.{page_of};
ghost use Rattle.chaos_table.specs.Pages.{first_on, size_on};

/// The page that covers element `g`, which is also the node that keeps it.
pub fn page_of(extent: u64, nodes: u32, g: u64) -> u32
    requires large { extent ≤ 4294967296 }
    requires some { 1 ≤ nodes }
    requires few { nodes ≤ 16 }
    requires from_one { 1 ≤ g }
    requires within { g ≤ extent }
    ensures page { result ≡ page_of extent nodes g }
    ensures node { result < nodes }
{
    ((g - 1) / width(extent, nodes)) as u32
}

/// How many elements a page has, but for the last pages.
pub(crate) fn width(extent: u64, nodes: u32) -> u64
    requires small { 1 ≤ extent }
    requires large { extent ≤ 4294967296 }
    requires some { 1 ≤ nodes }
    requires few { nodes ≤ 16 }
    ensures width { result ≡ divided_up extent nodes }
    ensures some { 1 ≤ result }
    ensures most { result ≤ 4294967296 }
{
    (extent - 1) / u64::from(nodes) + 1
}

/// The first element of a page, on the page or not.
pub(crate) fn first(extent: u64, nodes: u32, page: u32) -> u64
    requires small { 1 ≤ extent }
    requires large { extent ≤ 4294967296 }
    requires some { 1 ≤ nodes }
    requires few { nodes ≤ 16 }
    requires page { page < nodes }
    ensures { result ≡ first_on extent nodes page }
{
    before(extent, nodes, page) + 1
}

/// How many elements a page has.
pub(crate) fn size(extent: u64, nodes: u32, page: u32) -> u64
    requires small { 1 ≤ extent }
    requires large { extent ≤ 4294967296 }
    requires some { 1 ≤ nodes }
    requires few { nodes ≤ 16 }
    requires page { page < nodes }
    ensures size { result ≡ size_on extent nodes page }
    ensures most { result ≤ 4294967296 }
{
    width(extent, nodes).min(extent.saturating_sub(before(extent, nodes, page)))
}

/// How many elements the pages before this one have, were all of them full.
fn before(extent: u64, nodes: u32, page: u32) -> u64
    requires small { 1 ≤ extent }
    requires large { extent ≤ 4294967296 }
    requires some { 1 ≤ nodes }
    requires few { nodes ≤ 16 }
    requires page { page < nodes }
    ensures before { result + 1 ≡ first_on extent nodes page }
    ensures most { result ≤ 68719476736 }
{
    let page = u64::from(page);
    let width = width(extent, nodes);
    page * width
}
