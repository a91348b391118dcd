ghost use Rattle.std.specs.Prelude.{◌≡◌, ◌≤◌, IfOk, Err, None, Some, Option, map, string_bytes};
ghost use Rattle.bsp_mail.specs.Mails.{IsFresh};
ghost use Rattle.fd_outside.specs.Causes.{NoneFell};
ghost use Rattle.fd_command.specs.Asked.{Asked};
ghost use Rattle.fd_command.specs.Shown.{HasMeshInRange, shown};
ghost use Rattle.fd_edge.specs.Endings.{leaves};
ghost use Rattle.fd_edge.specs.Readings.{files_read};
ghost use Rattle.fd_top.specs.Answers.{RanRight, texts};
ghost use Rattle.fd_top.specs.Headline.{Headline};
ghost use Rattle.fd_top.specs.Outcomes.{IsRunStatus};
ghost use Rattle.fd_top.specs.Ready.{IsSoundRequest, Tells};
ghost use Rattle.fd_top.specs.Threads.{RunAnswered, RunCompleted, RunsOnThreads, asked_to_run, has_no_turns};

use crate::ready::called;
use crate::ways::{end_run, run_on_threads};
use bsp_mail::Mail;
use fd_command::{Manner, Refused, Request, Turns, requested};
use fd_edge::end_stop;
use fd_outside::{Files, Gate, Sink};
use std::alloc::Global;
use std::sync::Wait;
use std::thread::Threads;

const USAGE: &[u8] =
    b"usage: chaosrun (SOURCE | --mesh SEED --size N) [--nodes N] [--iterations owner|most] [--report]\n";

/// Whether a request has neither `--plain` nor `--turns`.
fn is_without_turns(manner: Manner) -> bool
    ensures { result ≡ has_no_turns manner }
{
    match manner.turns {
        Turns::RoundRobin => !manner.plain,
        Turns::Seeded(_) => false,
    }
}

/// What the words ask for: those of a player, but `--turns` and `--plain`.
fn requested_to_run<'a>(alloc: Global, words: &'a [String]) -> Result<Request<'a>, Refused>
    ensures taken { IfOk result (λ request. asked_to_run (map string_bytes words.entry.now) ≡ Some (shown request)) }
    ensures refused { result ≡ Err Refused.NotTaken → asked_to_run (map string_bytes words.entry.now) ≡ None }
    ensures some_nodes { IfOk result (λ request. 1 ≤ request.manner.nodes) }
    ensures few_nodes { IfOk result (λ request. request.manner.nodes ≤ 16) }
    ensures range { IfOk result (λ request. HasMeshInRange request.origin) }
{
    let request = match requested(alloc, words) {
        Ok(request) => request,
        Err(refused) => return Err(refused),
    };
    if is_without_turns(request.manner) {
        Ok(request)
    } else {
        Err(Refused::NotTaken)
    }
}

/// Does what a request asks for, if there is one.
fn run<R: Threads + Wait + Sync, F: Files, S: Sink, G: Gate>(
    rt: &R,
    alloc: Global,
    request: &Result<Request<'_>, Refused>,
    files: &mut F,
    out: &mut S,
    gate: &G,
    mail: &mut Mail,
) -> u8
    requires request { IsSoundRequest request.now }
    requires fresh { IsFresh mail.old.queues mail.old.seats.items }
    ensures answer { (asked : Option Asked) → Tells asked request.now → RunAnswered asked
        (files_read F.contents F.faults files.old files.new) result
        (leaves S.faults S.written out.old mail.old) (leaves S.faults S.written out.new mail.new) }
    ensures queues { mail.new.queues ≡ mail.old.queues }
    ensures files { (F.contents files.new ≡ F.contents files.old) × NoneFell (F.faults files.old) (F.faults files.new) }
    ensures failures { S.faults out.old ≤ S.faults out.new }
{
    match called(alloc, request, USAGE, files) {
        Ok(call) => {
            let run = run_on_threads(rt, alloc, call.ready, call.manner, gate, mail);
            end_run(out, run)
        }
        Err(stop) => end_stop(out, stop),
    }
}

/// All that `chaosrun` does: takes the words behind the program's name, reads the source or makes the mesh, and runs
/// it on threads, over the data files of the arrays that it reads, on nodes that each hold their parts of the arrays
/// alone and send one another letters by `mail`. Each node passes `gate` before each of its works. The call writes the
/// text, with `--report` the report behind it, or the one line of a refusal. The answer is the program's status.
///
/// Every answer has its cause in the clause `answer`. It also says what the Mail is afterwards: where a line was to
/// be written, it is as it was; where a run's text was, each pair of nodes has exactly the letters that are due in the
/// run as sent and as taken, and all other pairs are empty; where memory was wanting, it is as it was or has the first
/// of a run's letters. `complete` says that without a fault of the sink or of the files that are named, the answer is
/// what comes of the words, the source and the data, or want of memory. After 0 and 3 the text of the sequential run
/// was written, 3 says that it is refused (`ran`), and the letters say the rest of `headline`: loops were inspected
/// exactly where they had to be, each needed element went once from node to node, and no letter is left.
pub fn run_program<R: Threads + Wait + Sync, F: Files, S: Sink, G: Gate>(
    rt: &R,
    alloc: Global,
    words: &[String],
    files: &mut F,
    out: &mut S,
    gate: &G,
    mail: &mut Mail,
) -> u8
    requires fresh { IsFresh mail.old.queues mail.old.seats.items }
    ensures answer { RunAnswered (asked_to_run (texts words.now))
        (files_read F.contents F.faults files.old files.new) result
        (leaves S.faults S.written out.old mail.old) (leaves S.faults S.written out.new mail.new) }
    ensures complete { RunCompleted (asked_to_run (texts words.now))
        (files_read F.contents F.faults files.old files.new) result
        (leaves S.faults S.written out.old mail.old) (leaves S.faults S.written out.new mail.new) }

    // the headline: text, refusal, inspections, data letters, and nothing left, for every source that is run
    ensures ran { IsRunStatus result → RanRight RunsOnThreads (asked_to_run (texts words.now))
        (files_read F.contents F.faults files.old files.new) result
        (leaves S.faults S.written out.old mail.old) (leaves S.faults S.written out.new mail.new) }
    ensures headline { IsRunStatus result → Headline (asked_to_run (texts words.now))
        (files_read F.contents F.faults files.old files.new) result
        (leaves S.faults S.written out.old mail.old) (leaves S.faults S.written out.new mail.new) }

    // the outside
    ensures queues { mail.new.queues ≡ mail.old.queues }
    ensures contents { F.contents files.new ≡ F.contents files.old }
    ensures faults { NoneFell (F.faults files.old) (F.faults files.new) }
    ensures failures { S.faults out.old ≤ S.faults out.new }
{
    let request = requested_to_run(alloc, words);
    run(rt, alloc, &request, files, out, gate, mail)
}
