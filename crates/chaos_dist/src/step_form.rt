use crate::Shape;

/// What a DISTRIBUTE gives a decomposition: a regular shape, or the owners that a map array names, by
/// the array's number.
#[derive(Clone, Copy, Debug, PartialEq, Eq)]
pub enum StepForm {
    Regular(Shape),
    Map(u32),
}
