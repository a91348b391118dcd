ghost use Rattle.std.specs.Prelude.{◌≡◌, slice_set, IfOk};

use chaos_table::Pages;
use fd_words::{Memory, Places};
use inspect_places::PageSet;
use sqlite_items::Items;
use std::alloc::Global;

/// An equal page.
fn copy_page(alloc: Global, page: &Option<Pages>) -> Result<Option<Pages>, Memory>
    ensures { IfOk result (λ copy. copy ≡ page.now) }
{
    match page {
        Some(page) => Ok(Some(Pages {
            first: page.first,
            places: Places::from_slice(alloc, page.places.as_slice())?,
        })),
        None => Ok(None),
    }
}

/// Equal pages.
fn copy_pages(alloc: Global, pages: &[Option<Pages>]) -> Result<PageSet, Memory>
    ensures { IfOk result (λ copy. copy ≡ pages.now) }
{
    let mut copy = Vec::new(alloc);
    for page in pages {
        copy.push(copy_page(alloc, page)?)?;
    }
    Ok(Items::from_vec(copy))
}

/// The pages of all decompositions, where that of one is this.
pub fn pages_after(
    alloc: Global,
    pages: &PageSet,
    decomposition: u32,
    page: &Option<Pages>,
) -> Result<PageSet, Memory>
    ensures { IfOk result (λ after. after ≡ slice_set pages.now decomposition page.now) }
{
    let page = copy_page(alloc, page)?;
    let mut after = copy_pages(alloc, pages.as_slice())?;
    if (decomposition as usize) < after.len() {
        after.set(decomposition as usize, page);
    }
    Ok(after)
}
