ghost use Rattle.std.specs.Prelude.{◌≡◌, ◌⊎◌, ◌≤ℤ◌, pos, length, slice_get, All, IfOk, OnErr, OnOk};
ghost use Rattle.bsp_mail.specs.Mails.{IsFresh};
ghost use Rattle.chaos_bins.specs.Bins.{lines_of};
ghost use Rattle.bsp_core.specs.Views.{View};
ghost use Rattle.append_node.specs.Node.{AppendState, plan_of};
ghost use Rattle.chaos_append.specs.Letters.{AreAppendedWhole, AreAppendedInPart};

use append_node::{AppendJob, AppendNode, append_nodes, nodes_end_with_the_lines};
use bsp_core::NodeList;
use bsp_mail::Mail;
use bsp_threads::{drive_all, due_law};
use chaos_bins::laws::appended;
use fd_outside::Gate;
use fd_words::{Bytes, Memory, Numbers};
use std::alloc::Global;
use std::sync::Wait;
use std::thread::Threads;

/// The text of node 0.
fn first_text(alloc: Global, nodes: &NodeList<AppendNode>) -> Result<Bytes, Memory>
    ensures { IfOk result (λ text. (v : View AppendState) → slice_get nodes.now 0 ≡ Some v → text ≡ v.state.text) }
{
    match nodes.get(0) {
        Some(node) => node.text().copy(alloc),
        None => Ok(Bytes::new(alloc)),
    }
}

/// Drives the nodes of a job at once by a fresh Mail, and gives the lines that node 0 has then.
pub(crate) fn run_append<R: Threads + Wait + Sync, G: Gate>(
    rt: &R,
    alloc: Global,
    job: &AppendJob,
    bins: &Numbers,
    values: &Numbers,
    gate: &G,
    mail: &mut Mail,
) -> Result<Bytes, Memory>
    requires count { length bins.now ≡ job.now.count }
    requires in_bins { All (λ b. (pos 1 ≤ℤ b) × (b ≤ℤ pos job.now.bins)) bins.now }
    requires fresh { IsFresh mail.old.queues mail.old.seats.items }
    ensures text { IfOk result (λ text. text
        ≡ lines_of job.now.bins job.now.steps (plan_of job.now bins.now values.now).particles) }
    ensures letters { OnOk result (AreAppendedWhole (plan_of job.now bins.now values.now) mail.new.seats.items) }
    ensures cut { OnErr result ((mail.new ≡ mail.old) ⊎ AreAppendedInPart (plan_of job.now bins.now values.now) mail.new.seats.items) }
    ensures queues { mail.new.queues ≡ mail.old.queues }
{
    nodes_end_with_the_lines();
    appended();
    due_law::<AppendNode>();
    let mut nodes = append_nodes(alloc, job, bins, values)?;
    drive_all(rt, alloc, &mut nodes, mail, gate)?;
    first_text(alloc, &nodes)
}
