ghost use Rattle.std.specs.Prelude.{◌≡◌, ◌^◌, ◌<◌, ◌≤◌, [], true, length, ◌↔◌, IfOk, IfSome, IsSome};
ghost use Rattle.chaos_entering.specs.Coming.{CanStand, face_entered, noted_if};
ghost use Rattle.plan_walk.specs.Places.{whole_from};
ghost use Rattle.chaos_holdings.specs.Starting.{block_owners};
ghost use Rattle.bsp_core.specs.Views.{next_of};
ghost use Rattle.bsp_core.specs.declared.phased.Want.TheVariants.{Done};
ghost use Rattle.fd_program.specs.Checks.{IsChecked};
ghost use Rattle.fd_program.specs.Places.{parts_of};
ghost use Rattle.plan_run.specs.Rows.{IsRunPlan, RunPlan, node_row};
ghost use Rattle.chaos_entering.specs.Standing.{node_holds, session_in};

use crate::node::Node;
use bsp_core::Want;
use chaos_begin::Between;
use chaos_count::phases_of;
use chaos_entering::{Entered, enter_next};
use chaos_holdings::{Holdings, NodeEnd, Session, counts_of_none, first_holdings};
use chaos_move::Undo;
use fd_words::{Bytes, Memory, NumberLists, Numbers};
use std::alloc::Global;

/// How many phases can come, where there are fewer than 2^31.
fn phases_left(alloc: Global, session: &Session) -> Result<u32, Memory>
    requires { IsChecked session.now.checked }
    ensures few { IfOk result (λ left. left < 2 ^ 31) }
    ensures is { IfOk result (λ left. (plan : RunPlan) → IsRunPlan plan → session.now ≡ session_in plan
        → left ≡ length (whole_from plan [] session.now.trace)) }
{
    let phases = phases_of(
        alloc,
        &session.checked,
        &session.trace,
        session.nodes,
        session.rule,
    )?;
    Ok(within(phases))
}

/// A number of phases below 2^31; 0 for another.
fn within(phases: u64) -> u32
    ensures is { phases < 2 ^ 31 → result ≡ phases }
    ensures few { result < 2 ^ 31 }
{
    if phases < 2_147_483_648 {
        phases as u32
    } else {
        0
    }
}

/// A node that begins its first phase.
fn node_with<'a>(
    alloc: Global,
    session: &'a Session,
    me: u32,
    holdings: Holdings,
    end: NodeEnd,
    entered: Entered,
) -> Node<'a>
    requires checked { IsChecked session.now.checked }
    requires me { me < session.now.nodes }
    requires few { session.now.nodes ≤ 16 }
    requires stands { CanStand me session.now.nodes entered }
    ensures face { result.face ≡ face_entered me session.now.nodes entered }
    ensures state { result.state ≡ record {
      session = session.now;
      at = entered.at;
      holdings = holdings;
      text = [];
      inspected = [];
      end = end;
    } }
{
    let Entered {
        at,
        begins: _,
        left,
        out,
        due,
        got,
    } = entered;
    Node {
        alloc,
        session,
        me,
        left,
        at,
        holdings,
        text: Bytes::new(alloc),
        inspected: Numbers::new(alloc),
        end,
        out,
        due,
        got,
        undo: Undo::new(alloc),
    }
}

/// The node, with a note of the inspection that begins.
fn noting<'a>(node: Node<'a>, begins: bool, execution: u64) -> Result<Node<'a>, Memory>
    requires { begins ≡ true → execution < 2 ^ 63 }
    ensures face { IfOk result (λ n. n.face ≡ node.entry.face) }
    ensures state { IfOk result (λ n. n.state
        ≡ record node.entry.state { inspected = noted_if begins execution node.entry.state.inspected }) }
{
    let mut node = node;
    match node.note(begins, execution) {
        Ok(()) => Ok(node),
        Err(memory) => {
            discard(node);
            Err(memory)
        }
    }
}

/// Drops a node that isn't begun. It knows no type, since a drop of so large a one is dear to prove.
fn discard<T: Drop>(_it: T) {}

impl<'a> Node<'a> {
    /// The node of a number, with its local parts while every decomposition is in blocks.
    pub fn start(
        alloc: Global,
        session: &'a Session,
        id: u32,
        own: NumberLists,
    ) -> Result<Node<'a>, Memory>
        requires node { id < session.now.nodes }
        requires few { session.now.nodes ≤ 16 }
        requires checked { IsChecked session.now.checked }
        ensures { IfOk result (λ node. (plan : RunPlan) → IsRunPlan plan → session.now ≡ session_in plan
            → own ≡ parts_of plan.checked.arrays (block_owners plan.nodes plan.checked.layouts) plan.store id
            → (node.face ≡ node_row plan 0 id) × node_holds plan 0 id node.state) }
    {
        let left = phases_left(alloc, session)?;
        let end = NodeEnd {
            refused: None,
            counts: counts_of_none(alloc, session.checked.sites.len())?,
        };
        let holdings = first_holdings(alloc, session, id, own)?;
        let between = Between {
            checked: &session.checked,
            nodes: session.nodes,
            rule: session.rule,
            me: id,
            elements: &holdings.elements,
            parts: &holdings.parts,
            records: &holdings.records,
            kept: holdings.kept.as_slice(),
        };
        let entered = enter_next(alloc, session, &between, &holdings.pages, 0, left)?;
        let begins = entered.begins;
        let execution = entered.at.execution;
        let node = node_with(alloc, session, id, holdings, end, entered);
        noting(node, begins, execution)
    }

    /// What the node tells at its end; none before it.
    pub fn ending(&self) -> Option<&NodeEnd>
        ensures done { IsSome result ↔ (next_of self.now.face ≡ Done) }
        ensures end { IfSome result (λ end. end.now ≡ self.now.state.end) }
    {
        match self.next_action() {
            Want::Done => Some(&self.end),
            _ => None,
        }
    }

    /// The executions that this node inspected, in order.
    pub fn inspected(&self) -> &Numbers
        ensures { result.now ≡ self.now.state.inspected }
    {
        &self.inspected
    }

    /// The lines so far on node 0; nothing on the others.
    pub fn text(&self) -> &Bytes
        ensures { result.now ≡ self.now.state.text }
    {
        &self.text
    }
}
