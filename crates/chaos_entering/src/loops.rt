ghost use Rattle.std.specs.Prelude.{◌≡◌, ℕ, ◌≤◌, ◌<◌, ◌^◌, List, false, length, map, IfOk, IfSome};
ghost use Rattle.fd_words.specs.Lists.{list_at};
ghost use Rattle.chaos_inspect.specs.Inspecting.{phase_of};
ghost use Rattle.inspect_uses.specs.Accepted.{IsAccepted};
ghost use Rattle.chaos_entering.specs.Coming.{CanStand};
ghost use Rattle.chaos_entering.specs.Entering.{ArePosted, naming_in};
ghost use Rattle.chaos_entering.specs.Enters.{EntersGather, EntersInspection, EntersMove, EntersScatter};
ghost use Rattle.chaos_entering.specs.Sending.{AreSentBy, IsSomeOk, IsStagedBy};

use crate::activity::Activity;
use crate::enter_prints::enter_end;
use crate::entered::{Entered, Posted, entered_by, post};
use crate::groups::group;
use crate::sizes::{counts, own_of, sizes_of};
use chaos_executing::{
    Executing, gather_counts, gather_lists, letters_have_counts, scatter_counts, scatter_lists,
};
use chaos_holdings::Session;
use chaos_inspect::Inspection;
use chaos_moving::Moving;
use chaos_sched::Prepared;
use fd_words::{Memory, NumberLists, Numbers};
use inspect_places::PageSet;
use plan_loop::LoopPhase;
use plan_run::Stage;
use plan_walk::Naming;
use sqlite_items::Items;
use std::alloc::Global;

/// What the letters of a stage name, and in which groups their numbers come.
fn naming(session: &Session, stage: Stage, execution: u64, site: u32) -> Naming
    ensures { result ≡ naming_in session.now.checked stage execution site }
{
    Naming {
        stage,
        execution,
        site,
        group: group(&session.checked, stage, site),
    }
}

/// The lists of a stage in which all nodes send to all: the node's own, how long each is, and the letters.
#[derive(Drop)]
struct Staged {
    own: Numbers,
    sizes: Items<u64>,
    posted: Posted,
}

/// A stage in which all nodes send to all, with these lists.
fn enter_stage(
    alloc: Global,
    session: &Session,
    me: u32,
    naming: Naming,
    lists: &NumberLists,
    counts: &[u64],
) -> Result<Staged, Memory>
    ensures own { IfOk result (λ x. x.own ≡ list_at lists.now me) }
    ensures sizes { IfOk result (λ x. x.sizes ≡ map length lists.now) }
    ensures posted { IfOk result (λ x. ArePosted naming me session.now.nodes lists.now counts.now x.posted) }
{
    let own = own_of(alloc, lists, me)?;
    let sizes = sizes_of(alloc, lists)?;
    let posted = post(alloc, naming, me, session.nodes, lists, counts)?;
    Ok(Staged {
        own,
        sizes: Items::from_vec(sizes),
        posted,
    })
}

/// Such a stage, if there was memory for its lists, by receiver, and for the lengths of those that it
/// takes, by sender.
fn sent_by(
    alloc: Global,
    session: &Session,
    me: u32,
    naming: Naming,
    lists: Result<NumberLists, Memory>,
    counts: Result<Vec<u64>, Memory>,
) -> Result<Staged, Memory>
    ensures { IfOk result (AreSentBy naming me session.now.nodes lists counts) }
{
    match lists {
        Ok(lists) => match counts {
            Ok(counts) => enter_stage(alloc, session, me, naming, &lists, counts.as_slice()),
            Err(Memory) => Err(Memory),
        },
        Err(Memory) => Err(Memory),
    }
}

/// Such a stage with what the node does in it.
fn stage_with(naming: Naming, activity: Activity, left: u32, sent: Staged) -> Entered
    ensures { IsStagedBy naming activity left sent result }
{
    let Staged { own, sizes, posted } = sent;
    entered_by(naming, activity, own, sizes, left, posted)
}

/// The stage with these letters, if there was memory for them.
fn staged_by(
    naming: Naming,
    activity: Activity,
    left: u32,
    sent: Result<Staged, Memory>,
) -> Result<Entered, Memory>
    ensures { IfOk result (λ e. IsSomeOk sent (λ x. IsStagedBy naming activity left x e)) }
{
    match sent {
        Ok(sent) => Ok(stage_with(naming, activity, left, sent)),
        Err(Memory) => without(activity),
    }
}

fn without(_activity: Activity) -> Result<Entered, Memory>
    ensures { IfOk result (λ e. ⊥) }
{
    Err(Memory)
}

/// Nothing more of an activity is due.
fn is_over(alloc: Global, execution: u64, _activity: Activity) -> Entered
    ensures left { result.left ≡ 0 }
    ensures begins { result.begins ≡ false }
    ensures stands { (me nodes : ℕ) → CanStand me nodes result }
{
    enter_end(alloc, execution)
}

/// The next stage of a move; `sizes` has the lengths of the lists that were sent in the stage before.
pub fn enter_move(
    alloc: Global,
    session: &Session,
    me: u32,
    execution: u64,
    moving: Moving,
    sizes: &[u64],
    left: u32,
) -> Result<Entered, Memory>
    requires left { left < 2 ^ 31 }
    ensures made { IfOk result (CanStand me session.now.nodes) }
    ensures falls { IfOk result (λ e. e.left ≤ left) }
    ensures right { IfOk result (EntersMove session.now me execution moving sizes.now left) }
{
    match moving.stage() {
        Some(stage) => {
            let naming = naming(session, stage, execution, moving.share.decomposition);
            let lists = moving.outgoing(alloc);
            let counts = counts(alloc, stage, session.nodes, sizes);
            let sent = sent_by(alloc, session, me, naming, lists, counts);
            staged_by(naming, Activity::Moving(moving), left, sent)
        }
        None => Ok(is_over(alloc, execution, Activity::Moving(moving))),
    }
}

/// The next phase of an inspection; `sizes` has the lengths of the lists that were sent in the phase before.
pub fn enter_inspection(
    alloc: Global,
    session: &Session,
    me: u32,
    execution: u64,
    site: u32,
    inspection: Inspection,
    parts: &NumberLists,
    pages: &PageSet,
    sizes: &[u64],
    left: u32,
) -> Result<Entered, Memory>
    requires accepted { IsAccepted inspection.facts }
    requires left { left < 2 ^ 31 }
    ensures made { IfOk result (CanStand me session.now.nodes) }
    ensures falls { IfOk result (λ e. e.left ≤ left) }
    ensures begins { IfOk result (λ e. e.begins ≡ false) }
    ensures placed { IfOk result (λ e. IfSome (phase_of inspection.stage) (λ l. (e.at.execution ≡ execution) × (e.at.site ≡ site))) }
    ensures right { IfOk result (EntersInspection session.now me execution site inspection parts.now pages.now sizes.now left) }
{
    match inspection.phase() {
        Some(phase) => {
            let stage = Stage::InLoop(phase);
            let naming = naming(session, stage, execution, site);
            let lists = inspection.outgoing(alloc, parts, pages);
            let counts = counts(alloc, stage, session.nodes, sizes);
            let sent = sent_by(alloc, session, me, naming, lists, counts);
            staged_by(naming, Activity::Inspecting(inspection), left, sent)
        }
        None => Ok(is_over(alloc, execution, Activity::Inspecting(inspection))),
    }
}

/// The phase in which the ghosts of an execution are gathered.
pub fn enter_gather(
    alloc: Global,
    session: &Session,
    me: u32,
    execution: u64,
    site: u32,
    prepared: &Prepared,
    parts: &NumberLists,
    left: u32,
) -> Result<Entered, Memory>
    requires left { left < 2 ^ 31 }
    ensures made { IfOk result (CanStand me session.now.nodes) }
    ensures falls { IfOk result (λ e. e.left ≤ left) }
    ensures right { IfOk result (EntersGather session.now me execution site prepared.now parts.now left) }
{
    letters_have_counts();
    let naming = naming(session, Stage::InLoop(LoopPhase::Gather), execution, site);
    let lists = gather_lists(alloc, prepared, parts);
    let counts = gather_counts(alloc, prepared);
    let sent = sent_by(alloc, session, me, naming, lists, counts);
    staged_by(naming, Activity::Gathering, left, sent)
}

/// The phase in which its contributions are scattered.
pub fn enter_scatter(
    alloc: Global,
    session: &Session,
    me: u32,
    execution: u64,
    site: u32,
    prepared: &Prepared,
    executing: Executing,
    left: u32,
) -> Result<Entered, Memory>
    requires left { left < 2 ^ 31 }
    ensures made { IfOk result (CanStand me session.now.nodes) }
    ensures falls { IfOk result (λ e. e.left ≤ left) }
    ensures right { IfOk result (EntersScatter session.now me execution site prepared.now executing left) }
{
    letters_have_counts();
    let naming = naming(session, Stage::InLoop(LoopPhase::Scatter), execution, site);
    let lists = scatter_lists(alloc, prepared, &executing);
    let counts = scatter_counts(alloc, prepared);
    let sent = sent_by(alloc, session, me, naming, lists, counts);
    staged_by(naming, Activity::Scattering(executing), left, sent)
}
