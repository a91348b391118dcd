ghost use Rattle.std.specs.Prelude.{◌<◌, ◌^◌, All};

use chaos_sched::{LocalRefs, Needs};
use fd_words::Numbers;

/// What a node has prepared as it asks for elements: its iterations, where each of their references
/// finds its value, by iteration and reference number and without index references, and each element
/// of another node that one of them reaches, in the same order.
#[derive(Debug, Drop)]
pub struct Entering {
    pub iterations: Numbers,
    pub references: LocalRefs,
    pub needs: Needs,
    pub ghost elements: { All (λ n. n.element < 2 ^ 63) needs },
    pub ghost locals: { All (λ n. n.place.local < 2 ^ 63) needs },
}
