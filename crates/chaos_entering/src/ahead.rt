ghost use Rattle.std.specs.Prelude.{◌<◌, ◌^◌};

use chaos_begin::Between;
use chaos_holdings::Session;
use inspect_places::PageSet;
use std::alloc::Global;

/// The step that a node is about to enter: what is looked at before it, its number and what it is for, and
/// how many phases are left.
#[derive(Clone, Copy)]
pub(crate) struct Ahead<'a> {
    pub alloc: Global,
    pub session: &'a Session,
    pub between: &'a Between<'a>,
    pub pages: &'a PageSet,
    pub number: u64,
    pub site: u32,
    pub left: u32,
    pub ghost few_steps: { number < 2 ^ 63 },
    pub ghost few_left: { left < 2 ^ 31 },
}
