//! The engine that drives all nodes of a session at once.
ghost use Rattle.std.specs.Prelude.{◌≡◌, is_some, IfOk, OnOk};
ghost use Rattle.chaos_engine.specs.Runs.{IsAdmitted};
ghost use Rattle.chaos_engine.specs.Threads.{AreWithinDue, HasDueLists};
ghost use Rattle.bsp_threads.specs.Alls.{AreEmptyFrom};
ghost use Rattle.bsp_mail.specs.Mails.{ArePrefixes, IsFresh};
ghost use Rattle.fd_program.specs.Reports.{report_of_program};
ghost use Rattle.fd_program.specs.Runs.{run_of};
ghost use Rattle.fd_program.specs.Texts.{text_of};

use crate::turns::{EngineEnd, end_of, nodes_of};
use bsp_mail::Mail;
use bsp_threads::drive_all;
use chaos_holdings::Session;
use chaos_node::nodes_end_with_the_run;
use fd_outside::Gate;
use fd_program::Store;
use fd_words::Memory;
use std::alloc::Global;
use std::sync::Wait;
use std::thread::Threads;

/// Drives the nodes of a session at once by a fresh Mail, until all are done, and gives what node 0 tells
/// then.
///
/// After Ok the end is the program's, whatever order the threads ran in, and each pair's sent and taken
/// letters are those that are due in the run. Whatever the answer, each sent list is a prefix of what is
/// due, each taken list is a prefix of its sent list, and a seat that has no node has sent and taken
/// nothing.
pub fn run_threads<R: Threads + Wait + Sync, G: Gate>(
    rt: &R,
    alloc: Global,
    session: &Session,
    store: &Store,
    gate: &G,
    mail: &mut Mail,
) -> Result<EngineEnd, Memory>
    requires admitted { IsAdmitted session.now store.now }
    requires fresh { IsFresh mail.old.queues mail.old.seats.items }
    ensures text { IfOk result (λ e. e.text ≡ text_of session.now.checked store.now) }
    ensures refused { IfOk result (λ e. e.refused ≡ is_some (run_of session.now.checked store.now).refused) }
    ensures report { IfOk result (λ e. e.report ≡ report_of_program session.now.checked session.now.nodes session.now.rule store.now) }
    ensures lists { OnOk result (HasDueLists session.now store.now mail.new.seats.items) }
    ensures within { AreWithinDue session.now store.now mail.new.seats.items }
    ensures prefixes { ArePrefixes mail.new.seats.items }
    ensures empty { AreEmptyFrom session.now.nodes mail.new.seats.items }
    ensures queues { mail.new.queues ≡ mail.old.queues }
{
    nodes_end_with_the_run();
    let mut nodes = nodes_of(alloc, session, store)?;
    drive_all(rt, alloc, &mut nodes, mail, gate)?;
    end_of(alloc, &session.checked, &nodes)
}
