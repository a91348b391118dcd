ghost use Rattle.std.specs.Prelude.{◌≤◌, ◌<◌, All, length};
ghost use Rattle.chaos_deref.specs.Asking.{IsElement};

use fd_words::{NumberLists, Numbers};

/// What one node has of a decomposition before it is moved: its elements, ascending, and the local part
/// of each of the decomposition's arrays, in array order.
#[derive(Debug, Drop)]
pub struct Share {
    pub me: u32,
    pub nodes: u32,
    pub decomposition: u32,
    pub extent: u64,
    pub elements: Numbers,
    pub pieces: NumberLists,
    pub ghost some_elements: { 1 ≤ extent },
    pub ghost few_elements: { extent ≤ 1048576 },
    pub ghost some_nodes: { 1 ≤ nodes },
    pub ghost few_nodes: { nodes ≤ 16 },
    pub ghost node: { me < nodes },
    pub ghost within: { All (IsElement extent) elements },
    pub ghost few_arrays: { length pieces ≤ 64 },
}
