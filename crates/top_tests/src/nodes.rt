//! A node that is given a letter that it doesn't want.
ghost use Rattle.std.specs.Prelude.{◌≡◌, ◌<◌, ◌≤◌, Ok, IfOk};
ghost use Rattle.chaos_engine.specs.Runs.{IsAdmitted};
ghost use Rattle.fd_program.specs.Checks.{IsChecked};
ghost use Rattle.fd_trace.specs.Way.{IsUnrolled};

use crate::calling::files_of;
use crate::programs::{ADDED, ADDS};
use bsp_core::{Phased, TakeFault, Want};
use chaos_engine::split;
use chaos_holdings::Session;
use chaos_letter::{Kind, Letter};
use chaos_node::Node;
use fd_front::{Source, read_source};
use fd_load::load;
use fd_program::{HomeRule, Store};
use fd_words::{Memory, NumberLists, Numbers};
use std::alloc::Global;
use std::process::Abort;
use std::test::Fail;

/// A source on so many nodes, and its arrays before the run.
fn session_of(alloc: Global, source: Source, nodes: u32) -> Result<(Session, Store), Memory>
    requires sound { IsChecked source.checked }
    requires trace { IsUnrolled source.checked (Ok source.trace) }
    requires some { 0 < nodes }
    requires few { nodes ≤ 16 }
    ensures admitted { IfOk result (λ p. IsAdmitted p.0 p.1) }
    ensures nodes { IfOk result (λ p. p.0.nodes ≡ nodes) }
{
    let mut files = files_of(alloc, "", ADDED, None)?;
    match load(alloc, &mut files, &source.checked) {
        Ok(store) => {
            let Source { checked, trace, .. } = source;
            let session = Session {
                checked,
                trace,
                nodes,
                rule: HomeRule::Owner,
            };
            Ok((session, store))
        }
        Err(_) => Err(Memory),
    }
}

/// The program that adds, on so many nodes.
fn adding(alloc: Global, nodes: u32) -> Result<(Session, Store), Memory>
    requires some { 0 < nodes }
    requires few { nodes ≤ 16 }
    ensures admitted { IfOk result (λ p. IsAdmitted p.0 p.1) }
    ensures nodes { IfOk result (λ p. p.0.nodes ≡ nodes) }
{
    match read_source(alloc, ADDS.as_bytes()) {
        Ok(source) => session_of(alloc, source, nodes),
        Err(_) => Err(Memory),
    }
}

/// The parts of node 0.
fn first_parts(alloc: Global, session: &Session, store: &Store) -> Result<NumberLists, Memory>
    requires { IsAdmitted session.now store.now }
{
    let pieces = split(alloc, session, store)?;
    match pieces.get(0) {
        Some(parts) => parts.copy(alloc),
        None => Ok(NumberLists::new(alloc)),
    }
}

/// A node that has sent its first letter wants the answer, and hands back what else it is given.
fn hands_back(rt: &impl Abort, alloc: Global, node: &mut Node<'_>) {
    assert_eq!(rt; node.next(), Want::Send(1));
    node.post();
    assert_eq!(rt; node.next(), Want::Take(1));
    let letter = Letter::new(Kind::Gather, 0, 0, Numbers::new(alloc));
    match node.take(letter) {
        Ok(()) => assert!(rt; false),
        Err(TakeFault::Stray { wanted, got }) => {
            assert_eq!(rt; wanted.kind, Kind::IndexAsk);
            assert_eq!(rt; got.kind, Kind::Gather);
        }
    }
    assert_eq!(rt; node.next(), Want::Take(1));
}

fn on_the_first(
    rt: &impl Abort,
    alloc: Global,
    session: &Session,
    store: &Store,
) -> Result<(), Fail>
    requires { IsAdmitted session.now store.now }
{
    let own = first_parts(alloc, session, store)?;
    let mut node = Node::start(alloc, session, 0, own)?;
    hands_back(rt, alloc, &mut node);
    Ok(())
}

/// A letter that isn't wanted is handed back, and nothing changes.
#[test]
fn a_stray_letter(rt: HostRuntime) -> Result<(), Fail> {
    let (session, store) = adding(rt.alloc(), 2)?;
    on_the_first(&rt, rt.alloc(), &session, &store)
}
