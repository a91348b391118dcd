ghost use Rattle.std.specs.Prelude.{◌≡◌, IfOk};

use crate::moving::{Moving, MovingStage};
use crate::share::Share;
use chaos_remap::Remapped;
use chaos_table::Pages;
use fd_words::{Memory, Places};
use std::alloc::Global;

impl Share {
    /// An equal share.
    pub fn copy(&self, alloc: Global) -> Result<Share, Memory>
        ensures { IfOk result (λ share. share ≡ self.now) }
    {
        Ok(Share {
            me: self.me,
            nodes: self.nodes,
            decomposition: self.decomposition,
            extent: self.extent,
            elements: self.elements.copy(alloc)?,
            pieces: self.pieces.copy(alloc)?,
        })
    }
}

fn copy_page(alloc: Global, page: &Pages) -> Result<Pages, Memory>
    ensures { IfOk result (λ copy. copy ≡ page.now) }
{
    Ok(Pages {
        first: page.first,
        places: Places::from_slice(alloc, page.places.as_slice())?,
    })
}

fn copy_option(alloc: Global, page: &Option<Pages>) -> Result<Option<Pages>, Memory>
    ensures { IfOk result (λ copy. copy ≡ page.now) }
{
    match page {
        Some(page) => Ok(Some(copy_page(alloc, page)?)),
        None => Ok(None),
    }
}

fn copy_part(alloc: Global, part: &Remapped) -> Result<Remapped, Memory>
    ensures { IfOk result (λ copy. copy ≡ part.now) }
{
    Ok(Remapped {
        elements: part.elements.copy(alloc)?,
        pieces: part.pieces.copy(alloc)?,
    })
}

fn copy_stage(alloc: Global, stage: &MovingStage) -> Result<MovingStage, Memory>
    ensures { IfOk result (λ copy. copy ≡ stage.now) }
{
    match stage {
        MovingStage::Pairing { array, pairs } => Ok(MovingStage::Pairing {
            array: *array,
            pairs: pairs.copy(alloc)?,
        }),
        MovingStage::Counting { pairs } => Ok(MovingStage::Counting {
            pairs: pairs.copy(alloc)?,
        }),
        MovingStage::Asking => Ok(MovingStage::Asking),
        MovingStage::Answering { asked } => Ok(MovingStage::Answering {
            asked: asked.copy(alloc)?,
        }),
        MovingStage::Remapping { places } => Ok(MovingStage::Remapping {
            places: Places::from_slice(alloc, places.as_slice())?,
        }),
        MovingStage::Moved { part } => Ok(MovingStage::Moved {
            part: copy_part(alloc, part)?,
        }),
    }
}

impl Moving {
    /// An equal move.
    pub fn copy(&self, alloc: Global) -> Result<Moving, Memory>
        ensures { IfOk result (λ moving. moving ≡ self.now) }
    {
        Ok(Moving {
            share: self.share.copy(alloc)?,
            form: self.form,
            page: copy_option(alloc, &self.page)?,
            stage: copy_stage(alloc, &self.stage)?,
        })
    }
}
