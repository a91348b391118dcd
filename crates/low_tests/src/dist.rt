ghost use Rattle.std.specs.Prelude.{◌≡◌, ◌≤◌};
ghost use Rattle.chaos_dist.specs.Layout.{given_size};

use chaos_dist::*;
use std::process::Abort;

fn layout(extent: u64, nodes: u32, shape: Shape) -> Regular
    requires some_elements { 1 ≤ extent }
    requires some_nodes { 1 ≤ nodes }
    requires few_nodes { nodes ≤ 16 }
    requires some_size { 1 ≤ given_size shape }
    ensures extent { result.extent ≡ extent }
    ensures nodes { result.nodes ≡ nodes }
{
    Regular {
        extent,
        nodes,
        shape,
    }
}

fn stands(rt: &impl Abort, layout: Regular, g: u64, owner: u32, local: u64)
    requires from_one { 1 ≤ g }
    requires within { g ≤ layout.extent }
{
    assert_eq!(rt; layout.owner(g), owner);
    assert_eq!(rt; layout.local(g), local);
    assert_eq!(rt; layout.global_of(layout.owner(g), layout.local(g)), g);
}

#[test]
fn blocks(rt: HostRuntime) {
    let five_on_two = layout(5, 2, Shape::Block);
    stands(&rt, five_on_two, 3, 0, 2);
    stands(&rt, five_on_two, 4, 1, 0);
    assert_eq!(rt; five_on_two.length_on(0), 3);
    assert_eq!(rt; five_on_two.length_on(1), 2);

    let five_on_four = layout(5, 4, Shape::Block);
    stands(&rt, five_on_four, 5, 2, 0);
    assert_eq!(rt; five_on_four.length_on(2), 1);
    assert_eq!(rt; five_on_four.length_on(3), 0);

    let one_on_many = layout(1, 16, Shape::Block);
    stands(&rt, one_on_many, 1, 0, 0);
    assert_eq!(rt; one_on_many.length_on(15), 0);

    let large = layout(4294967296, 16, Shape::Block);
    stands(&rt, large, 4294967296, 15, 268435455);
    layout_laws(large);
}

#[test]
fn in_turn(rt: HostRuntime) {
    let five_on_two = layout(5, 2, Shape::Cyclic);
    stands(&rt, five_on_two, 5, 0, 2);
    stands(&rt, five_on_two, 4, 1, 1);
    assert_eq!(rt; five_on_two.length_on(1), 2);

    let pairs = layout(7, 2, Shape::BlockCyclic(2));
    stands(&rt, pairs, 5, 0, 2);
    stands(&rt, pairs, 7, 1, 2);
    assert_eq!(rt; pairs.length_on(0), 4);
    assert_eq!(rt; pairs.length_on(1), 3);

    let one_run = layout(7, 3, Shape::BlockCyclic(7));
    stands(&rt, one_run, 7, 0, 6);
    assert_eq!(rt; one_run.length_on(1), 0);

    let longer_run = layout(7, 3, Shape::BlockCyclic(100));
    stands(&rt, longer_run, 7, 0, 6);
    assert_eq!(rt; longer_run.length_on(0), 7);

    let few_on_many = layout(3, 16, Shape::Cyclic);
    stands(&rt, few_on_many, 3, 2, 0);
    assert_eq!(rt; few_on_many.length_on(3), 0);

    let last = layout(u64::MAX, 16, Shape::BlockCyclic(1));
    stands(&rt, last, u64::MAX, 14, 1152921504606846975);
}
