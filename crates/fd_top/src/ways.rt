//! The ways in which a source runs: plainly, in turns, on threads.
ghost use Rattle.std.specs.Prelude.{◌≡◌, ◌≤◌, ◌++◌, IfOk, OnErr, None, Some, MatchResult, if◌then◌else◌};
ghost use Rattle.bsp_mail.specs.Mails.{IsFresh};
ghost use Rattle.fd_edge.specs.Endings.{IsWritten};
ghost use Rattle.fd_top.specs.Outcomes.{order_of, rule_of, RunsPlainly, RunsInTurns};
ghost use Rattle.fd_top.specs.Ready.{HasNodes, IsRunnable, outcome_with, session_for};
ghost use Rattle.fd_top.specs.Threads.{HasSome, RunsOnThreads};

use crate::ready::Ready;
use bsp_core::Played;
use bsp_mail::Mail;
use chaos_engine::{EngineEnd, Order, run_threads, run_turns};
use chaos_holdings::Session;
use fd_command::{Iterations, Manner, Turns};
use fd_edge::end;
use fd_front::Source;
use fd_meaning::run_plain;
use fd_outside::{Gate, Sink};
use fd_program::HomeRule;
use fd_words::{Bytes, Memory};
use std::alloc::Global;
use std::sync::Wait;
use std::thread::Threads;

/// What a run comes to: its status, and the bytes to write.
#[derive(Debug, Drop)]
pub(crate) struct RunEnd {
    status: u8,
    text: Bytes,
}

/// Writes what a run comes to, and answers the status; 70 where memory was wanting for the run.
pub(crate) fn end_run<S: Sink>(out: &mut S, run: Result<RunEnd, Memory>) -> u8
    ensures ends { MatchResult run (λ e. IsWritten e.status e.text result (S.faults out.old) (S.faults out.new) (S.written out.old)
        (S.written out.new))
        (λ memory. (result ≡ 70) × (S.written out.new ≡ S.written out.old)) }
    ensures later { S.faults out.old ≤ S.faults out.new }
{
    match run {
        Ok(run) => end(out, run.status, run.text.as_slice()),
        Err(Memory) => 70,
    }
}

/// The status of a run.
fn status_of(is_refused: bool) -> u8
    ensures { result ≡ (if is_refused then 3 else 0) }
{
    if is_refused { 3 } else { 0 }
}

/// The order of the turns.
fn order(turns: Turns) -> Order
    ensures { result ≡ order_of turns }
{
    match turns {
        Turns::RoundRobin => Order::RoundRobin,
        Turns::Seeded(seed) => Order::Seeded(u64::from(seed)),
    }
}

/// The rule for the homes of iterations.
fn rule(iterations: Iterations) -> HomeRule
    ensures { result ≡ rule_of iterations }
{
    match iterations {
        Iterations::Owner => HomeRule::Owner,
        Iterations::Most => HomeRule::Most,
    }
}

/// How a source's nodes run.
fn session(source: Source, manner: Manner) -> Session
    ensures { result ≡ session_for source manner }
{
    Session {
        checked: source.checked,
        trace: source.trace,
        nodes: manner.nodes,
        rule: rule(manner.iterations),
    }
}

/// What nodes tell at their end: the text, and the report behind it where one is asked for.
fn told(end: EngineEnd, report: bool) -> Result<RunEnd, Memory>
    ensures status { IfOk result (λ e. e.status ≡ (if end.refused then 3 else 0)) }
    ensures text { IfOk result (λ e. e.text ≡ (if report then end.text ++ end.report else end.text)) }
{
    let EngineEnd {
        mut text,
        refused,
        report: lines,
    } = end;
    if report {
        text.append(lines.as_slice())?;
    }
    Ok(RunEnd {
        status: status_of(refused),
        text,
    })
}

/// Runs a source on one machine.
pub(crate) fn run_plainly(alloc: Global, ready: Ready) -> Result<RunEnd, Memory>
    requires { IsRunnable ready.source ready.store }
    ensures { IfOk result (λ e. RunsPlainly ready.source ready.store (outcome_with e None)) }
{
    let Ready { source, store } = ready;
    let end = run_plain(alloc, &source.checked, &source.trace, store)?;
    Ok(RunEnd {
        status: status_of(end.refused.is_some()),
        text: end.text,
    })
}

/// Runs a source on nodes that take turns. What was played stands from then on.
pub(crate) fn run_in_turns(
    alloc: Global,
    ready: Ready,
    manner: Manner,
    played: &mut Played,
) -> Result<RunEnd, Memory>
    requires ready { IsRunnable ready.source ready.store }
    requires nodes { HasNodes manner }
    ensures runs { IfOk result (λ e. RunsInTurns manner ready.source ready.store (outcome_with e (Some played.new))) }
    ensures stays { OnErr result (played.new ≡ played.old) }
{
    let Ready { source, store } = ready;
    let session = session(source, manner);
    let (end, turns) = run_turns(alloc, &session, &store, order(manner.turns))?;
    let end = told(end, manner.report)?;
    *played = turns;
    Ok(end)
}

/// Runs a source on threads of its nodes, by a fresh Mail.
pub(crate) fn run_on_threads<R: Threads + Wait + Sync, G: Gate>(
    rt: &R,
    alloc: Global,
    ready: Ready,
    manner: Manner,
    gate: &G,
    mail: &mut Mail,
) -> Result<RunEnd, Memory>
    requires ready { IsRunnable ready.source ready.store }
    requires nodes { HasNodes manner }
    requires fresh { IsFresh mail.old.queues mail.old.seats.items }
    ensures runs { IfOk result (λ e. RunsOnThreads manner ready.source ready.store (outcome_with e (Some mail.new))) }
    ensures some { HasSome manner ready.source ready.store mail.new }
    ensures queues { mail.new.queues ≡ mail.old.queues }
{
    let Ready { source, store } = ready;
    let session = session(source, manner);
    let end = run_threads(rt, alloc, &session, &store, gate, mail)?;
    told(end, manner.report)
}
