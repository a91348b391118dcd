ghost use Rattle.std.specs.Prelude.{◌≡◌, ◌≤◌, ◌<◌};
ghost use Rattle.chaos_dist.specs.Layout.{count_on, width_of};

use chaos_dist::{Regular, Shape};

/// How many elements a node is dealt at a time.
fn width(layout: Regular) -> u64
    ensures { result ≡ width_of layout.shape layout.extent layout.nodes }
{
    match layout.shape {
        Shape::Block => (layout.extent - 1) / u64::from(layout.nodes) + 1,
        Shape::Cyclic => 1,
        Shape::BlockCyclic(size) => size,
    }
}

/// How many of the elements 1 to `last` are on a node.
pub(crate) fn count_to(layout: Regular, node: u32, last: u64) -> u64
    requires node { node < layout.nodes }
    requires within { last ≤ layout.extent }
    ensures { result ≡ count_on layout.shape layout.extent layout.nodes node last }
{
    let width = width(layout);
    let nodes = u64::from(layout.nodes);
    let node = u64::from(node);
    let rounds = last / width / nodes;
    let turn = last / width % nodes;
    let rest = if node < turn {
        width
    } else if node == turn {
        last % width
    } else {
        0
    };
    rounds * width + rest
}
