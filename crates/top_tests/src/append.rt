//! How many turns the nodes of a job move in a World, in rounds. The numbers come from counting letters and phases.
ghost use Rattle.std.specs.Prelude.{◌≡◌, ◌≤◌, ◌≤ℤ◌, ◌^◌, pos, length, All, IfOk};

use append_node::{AppendJob, AppendNode, append_nodes};
use bsp_core::World;
use fd_words::{Memory, Numbers};
use std::alloc::Global;
use std::process::Abort;
use std::test::Fail;

/// Numbers with `/` between.
fn numbers_of(alloc: Global, text: &str) -> Result<Numbers, Memory> {
    let mut numbers = Numbers::new(alloc);
    for word in text.split('/') {
        if let Ok(number) = word.parse::<i64>() {
            numbers.push(number)?;
        }
    }
    Ok(numbers)
}

/// The same, but those that aren't bins.
fn bins_of(alloc: Global, bins: u32, text: &str) -> Result<Numbers, Memory>
    ensures { IfOk result (λ numbers. All (λ b. (pos 1 ≤ℤ b) × (b ≤ℤ pos bins)) numbers) }
{
    let mut numbers = Numbers::new(alloc);
    for word in text.split('/') {
        if let Ok(number) = word.parse::<i64>() {
            if number >= 1 && number <= i64::from(bins) {
                numbers.push(number)?;
            }
        }
    }
    Ok(numbers)
}

/// A World of the nodes of a job.
fn world_of(
    alloc: Global,
    job: &AppendJob,
    bins: &Numbers,
    values: &Numbers,
) -> Result<World<AppendNode>, Memory>
    requires count { length bins.now ≡ job.now.count }
    requires in_bins { All (λ b. (pos 1 ≤ℤ b) × (b ≤ℤ pos job.now.bins)) bins.now }
{
    let nodes = append_nodes(alloc, job, bins, values)?;
    World::new(alloc, nodes)
}

/// How many turns move in rounds until all are done.
fn moves_of(mut world: World<AppendNode>) -> Result<u64, Memory> {
    match world.round_robin() {
        Ok(moves) => Ok(moves),
        Err(_) => Err(Memory),
    }
}

/// The same of so many steps in so many bins, on so many nodes.
fn moves(
    alloc: Global,
    bins: u32,
    steps: u32,
    nodes: u32,
    firsts: &str,
    values: &str,
) -> Result<u64, Memory>
    requires bins { (1 ≤ bins) × (bins ≤ 2 ^ 16) }
    requires steps { steps ≤ 1000 }
    requires nodes { (1 ≤ nodes) × (nodes ≤ 16) }
{
    let firsts = bins_of(alloc, bins, firsts)?;
    let values = numbers_of(alloc, values)?;
    let count = firsts.len();
    if count < 1 || count > 1_048_576 {
        return Err(Memory);
    }
    let job = AppendJob {
        bins: u64::from(bins),
        steps: u64::from(steps),
        count,
        nodes,
    };
    moves_of(world_of(alloc, &job, &firsts, &values)?)
}

fn moves_are(rt: &impl Abort, moves: Result<u64, Memory>, wanted: u64) -> Result<(), Fail> {
    assert_eq!(rt; moves?, wanted);
    Ok(())
}

#[test]
fn turns_are_counted(rt: HostRuntime) -> Result<(), Fail> {
    let alloc = rt.alloc();
    moves_are(
        &rt,
        moves(
            alloc,
            2,
            1,
            2,
            "1/2/2",
            "-9223372036854775808/-9223372036854775808/9223372036854775807",
        ),
        28,
    )?;
    moves_are(
        &rt,
        moves(alloc, 4, 3, 3, "1/1/1/4/4/2", "2/2/2/-2/-2/2"),
        127,
    )?;
    moves_are(
        &rt,
        moves(alloc, 7, 6, 5, "1/2/3/4/5/6/7/1/1", "1/-8/3/3/3/-3/0/1/13"),
        643,
    )
}
