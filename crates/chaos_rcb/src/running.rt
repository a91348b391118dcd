ghost use Rattle.std.specs.Prelude.{◌≡◌, ◌⊎◌, Some, length, slice_get, All, IfOk, OnErr, OnOk};
ghost use Rattle.bsp_core.specs.Views.{View};
ghost use Rattle.bsp_mail.specs.Mails.{IsFresh};
ghost use Rattle.bsp_threads.specs.Due.{AreCut, AreDue};
ghost use Rattle.chaos_cut.specs.Regions.{AreSigned};
ghost use Rattle.bisect_node.specs.Plans.{text_of};
ghost use Rattle.bisect_node.specs.States.{BisectState};
ghost use Rattle.chaos_rcb.specs.Jobs.{plan_of};
ghost use Rattle.chaos_rcb.specs.Outcomes.{due_by_plan};

use bisect_node::{BisectNode, Job, bisect_nodes};
use bsp_core::NodeList;
use bsp_mail::Mail;
use bsp_threads::{drive_all, due_law};
use fd_outside::Gate;
use fd_words::{Bytes, Memory, NumberLists};
use std::alloc::Global;
use std::sync::Wait;
use std::thread::Threads;

/// The text of node 0.
fn first_text(alloc: Global, nodes: &NodeList<BisectNode>) -> Result<Bytes, Memory>
    ensures { IfOk result (λ text. (v : View BisectState) → slice_get nodes.now 0 ≡ Some v → text ≡ v.state.work.text) }
{
    match nodes.get(0) {
        Some(node) => node.text().copy(alloc),
        None => Ok(Bytes::new(alloc)),
    }
}

/// Drives the nodes of a job at once by a fresh Mail, and gives the map that node 0 has written then.
pub(crate) fn run_bisect<R: Threads + Wait + Sync, G: Gate>(
    rt: &R,
    alloc: Global,
    job: &Job,
    columns: &NumberLists,
    gate: &G,
    mail: &mut Mail,
) -> Result<Bytes, Memory>
    requires axes { job.now.axes ≡ length columns.now }
    requires count { All (λ column. length column ≡ job.now.count) columns.now }
    requires signed { AreSigned columns.now }
    requires fresh { IsFresh mail.old.queues mail.old.seats.items }
    ensures text { IfOk result (λ text. text ≡ text_of (plan_of job.now columns.now)) }
    ensures letters { OnOk result (AreDue job.now.nodes (due_by_plan (plan_of job.now columns.now)) mail.new.seats.items) }
    ensures cut { OnErr result ((mail.new ≡ mail.old)
        ⊎ AreCut job.now.nodes (due_by_plan (plan_of job.now columns.now)) mail.new.seats.items) }
    ensures queues { mail.new.queues ≡ mail.old.queues }
{
    due_law::<BisectNode>();
    let mut nodes = bisect_nodes(alloc, job, columns)?;
    drive_all(rt, alloc, &mut nodes, mail, gate)?;
    first_text(alloc, &nodes)
}
