ghost use Rattle.std.specs.Prelude.{◌≡◌};
ghost use Rattle.fd_program.specs.Past.{is_same_shape};
ghost use Rattle.chaos_records.specs.Keeping.{first_setting, is_as};

use chaos_dist::{Shape, StepForm};

/// What is kept of a decomposition: its form; where that is by a map, the change number that the array
/// had as the form was set, else 0; and how often the decomposition was moved.
#[derive(Clone, Copy, Debug, PartialEq, Eq)]
pub struct Setting {
    pub form: StepForm,
    pub change: i64,
    pub version: i64,
}

impl Setting {
    /// BLOCK from the start, never moved.
    pub fn first() -> Setting
        ensures { result ≡ first_setting }
    {
        Setting {
            form: StepForm::Regular(Shape::Block),
            change: 0,
            version: 0,
        }
    }

    /// Whether a form, by a map whose array has this change number, is the one that is set.
    pub fn is(self, form: StepForm, change: i64) -> bool
        ensures { result ≡ is_as self form change }
    {
        match (self.form, form) {
            (StepForm::Regular(old), StepForm::Regular(new)) => is_same(old, new),
            (StepForm::Map(old), StepForm::Map(new)) => old == new && self.change == change,
            (StepForm::Regular(_), StepForm::Map(_)) => false,
            (StepForm::Map(_), StepForm::Regular(_)) => false,
        }
    }
}

fn is_same(shape: Shape, other: Shape) -> bool
    ensures { result ≡ is_same_shape shape other }
{
    match (shape, other) {
        (Shape::Block, Shape::Block) => true,
        (Shape::Cyclic, Shape::Cyclic) => true,
        (Shape::BlockCyclic(size), Shape::BlockCyclic(other)) => size == other,
        _ => false,
    }
}
