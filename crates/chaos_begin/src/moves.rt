ghost use Rattle.std.specs.Prelude.{◌≡◌, ℕ, IfOk, IfSome, IsSomeAnd, MatchOption};
ghost use Rattle.chaos_dist.specs.Homes.{natural};
ghost use Rattle.chaos_dist.specs.Layout.{given_size};
ghost use Rattle.fd_program.specs.Checks.{layout_extent};
ghost use Rattle.chaos_begin.specs.Begins.{BeginsMoveTo, IsByMap, IsByShape, IsFitMove, IsMoveOf, IsShareOf, IsSoundBetween};

use crate::Between;
use crate::share::copy_at;
use chaos_dist::{Shape, StepForm};
use chaos_moving::{Moving, Share};
use fd_program::array_at;
use fd_words::Memory;
use std::alloc::Global;

/// So many elements are dealt at a time.
fn size_of(shape: Shape) -> u64
    ensures { result ≡ given_size shape }
{
    match shape {
        Shape::Block => 1,
        Shape::Cyclic => 1,
        Shape::BlockCyclic(size) => size,
    }
}

/// A number, or 0 for a negative one.
fn natural_of(number: i64) -> u64
    ensures { result ≡ natural number }
{
    if number < 0 { 0 } else { number as u64 }
}

fn by_shape(alloc: Global, share: Share, shape: Shape) -> Result<Option<Moving>, Memory>
    ensures { IfOk result (λ o. MatchOption o (given_size shape ≡ 0) (IsByShape share shape)) }
{
    if size_of(shape) == 0 {
        return Ok(None);
    }
    let moving = Moving::by_shape(alloc, share, shape)?;
    Ok(Some(moving))
}

impl<'a> Between<'a> {
    fn by_map(&self, alloc: Global, share: Share, array: u32) -> Result<Moving, Memory>
        ensures { IfOk result (IsByMap self.now share array) }
    {
        let facts = array_at(self.checked.arrays.as_slice(), array);
        let elements = copy_at(alloc, self.elements, facts.decomposition)?;
        let values = copy_at(alloc, self.parts, array)?;
        let offset = natural_of(facts.offset);
        Moving::by_map(alloc, share, array, offset, &elements, &values)
    }

    fn by_form(&self, alloc: Global, share: Share, form: StepForm) -> Result<Option<Moving>, Memory>
        requires sound { IsSoundBetween self.now }
        ensures begun { IfOk result (λ o. (d : ℕ) → IsShareOf self.now d (layout_extent self.now.checked.now.layouts d) share
            → BeginsMoveTo self.now d form o) }
        ensures plain { IfOk result (λ o. IfSome o (IsMoveOf share form)) }
    {
        match form {
            StepForm::Regular(shape) => by_shape(alloc, share, shape),
            StepForm::Map(array) => {
                let moving = self.by_map(alloc, share, array)?;
                Ok(Some(moving))
            }
        }
    }

    fn with_share(
        &self,
        alloc: Global,
        share: Option<Share>,
        form: StepForm,
    ) -> Result<Option<Moving>, Memory>
        requires sound { IsSoundBetween self.now }
        ensures begun { IfOk result (λ o. (d : ℕ)
            → IsSomeAnd share (IsShareOf self.now d (layout_extent self.now.checked.now.layouts d)) → BeginsMoveTo self.now d form o) }
        ensures plain { IfOk result (λ o. IfSome o (λ m. IsSomeAnd share (λ x. IsMoveOf x form m))) }
    {
        match share {
            None => Ok(None),
            Some(share) => self.by_form(alloc, share, form),
        }
    }

    /// The move of a decomposition to a form, before its first phase. None where that can't be, and it can in
    /// a run.
    pub(crate) fn move_to(
        &self,
        alloc: Global,
        d: u32,
        form: StepForm,
    ) -> Result<Option<Moving>, Memory>
        requires sound { IsSoundBetween self.now }
        ensures begun { IfOk result (BeginsMoveTo self.now d form) }
        ensures plain { IfOk result (λ o. IfSome o (IsFitMove self.now)) }
    {
        let share = self.share_of(alloc, d)?;
        self.with_share(alloc, share, form)
    }
}
