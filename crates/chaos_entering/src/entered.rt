ghost use Rattle.std.specs.Prelude.{◌≡◌, IfOk};
ghost use Rattle.chaos_entering.specs.Entering.{ArePosted, phase_with};

use crate::activity::{Activity, At};
use chaos_letter::{Letter, Wanted};
use fd_words::{Memory, NumberLists, Numbers};
use plan_walk::{Naming, sends, takes};
use sqlite_items::Items;
use std::alloc::Global;
use std::collections::VecDeque;

/// Where a node is as a phase begins, and what it has prepared for it: its letters by receiver, what it
/// wants by sender, and room for what it takes. `begins` tells that the inspection of a FORALL begins
/// with this phase.
#[derive(Drop)]
pub struct Entered {
    pub at: At,
    pub begins: bool,
    pub left: u32,
    pub out: VecDeque<(u32, Letter)>,
    pub due: VecDeque<(u32, Wanted)>,
    pub got: Vec<Letter>,
}

/// The letters of a phase by receiver, what is wanted by sender, and room for what is taken.
#[derive(Drop)]
pub struct Posted {
    pub out: VecDeque<(u32, Letter)>,
    pub due: VecDeque<(u32, Wanted)>,
    pub got: Vec<Letter>,
}

/// A phase whose letters are these lists, by receiver; where a length is known, that of the letter from
/// each node is its count.
pub fn post(
    alloc: Global,
    naming: Naming,
    me: u32,
    nodes: u32,
    lists: &NumberLists,
    counts: &[u64],
) -> Result<Posted, Memory>
    ensures { IfOk result (ArePosted naming me nodes lists.now counts.now) }
{
    let out = sends(alloc, naming, me, nodes, lists)?;
    let due = takes(alloc, naming, me, nodes, counts)?;
    let got = Vec::with_capacity(alloc, due.len())?;
    Ok(Posted { out, due, got })
}

/// A phase with these letters, and with these lists of the node itself; no inspection begins with it.
pub fn entered_by(
    naming: Naming,
    activity: Activity,
    own: Numbers,
    sizes: Items<u64>,
    left: u32,
    posted: Posted,
) -> Entered
    ensures { result ≡ phase_with naming activity own sizes left posted }
{
    let Posted { out, due, got } = posted;
    Entered {
        at: At {
            execution: naming.execution,
            site: naming.site,
            activity,
            own,
            sizes,
        },
        begins: false,
        left,
        out,
        due,
        got,
    }
}
