ghost use Rattle.std.specs.Prelude.{◌≡◌, ◌≤◌, Option};
ghost use Rattle.fd_outside.specs.Causes.{NoneFell};
ghost use Rattle.fd_command.specs.Asked.{Asked, asked};
ghost use Rattle.fd_edge.specs.Endings.{EndsBy, Stays, leaves};
ghost use Rattle.fd_edge.specs.Readings.{files_read};
ghost use Rattle.fd_top.specs.Answers.{PlayAnswered, PlayCompleted, RanRight, texts};
ghost use Rattle.fd_top.specs.Outcomes.{IsRunStatus, PlaysRun};
ghost use Rattle.fd_top.specs.Ready.{CanRun, IsSoundRequest, Tells};

use crate::ready::{Call, called};
use crate::ways::{end_run, run_in_turns, run_plainly};
use bsp_core::Played;
use fd_command::{Refused, Request, requested};
use fd_edge::end_stop;
use fd_outside::{Files, Sink};
use std::alloc::Global;

const USAGE: &[u8] =
    b"usage: chaosplay (SOURCE | --mesh SEED --size N) [--nodes N] [--iterations owner|most] [--report] [--turns SEED] [--plain]\n";

/// Runs a source plainly or in turns, and writes what it comes to.
fn play_call<S: Sink>(alloc: Global, call: Call, out: &mut S, played: &mut Played) -> u8
    requires { CanRun call }
    ensures ends { EndsBy (PlaysRun call.manner call.ready.source call.ready.store) Stays result
        (leaves S.faults S.written out.old played.old)
        (leaves S.faults S.written out.new played.new) }
    ensures failures { S.faults out.old ≤ S.faults out.new }
{
    let Call { manner, ready } = call;
    if manner.plain {
        end_run(out, run_plainly(alloc, ready))
    } else {
        end_run(out, run_in_turns(alloc, ready, manner, played))
    }
}

/// Does what a request asks for, if there is one.
fn play<F: Files, S: Sink>(
    alloc: Global,
    request: &Result<Request<'_>, Refused>,
    files: &mut F,
    out: &mut S,
    played: &mut Played,
) -> u8
    requires { IsSoundRequest request.now }
    ensures answer { (asked : Option Asked) → Tells asked request.now → PlayAnswered asked
        (files_read F.contents F.faults files.old files.new) result
        (leaves S.faults S.written out.old played.old)
        (leaves S.faults S.written out.new played.new) }
    ensures files { (F.contents files.new ≡ F.contents files.old) × NoneFell (F.faults files.old) (F.faults files.new) }
    ensures failures { S.faults out.old ≤ S.faults out.new }
{
    match called(alloc, request, USAGE, files) {
        Ok(call) => play_call(alloc, call, out, played),
        Err(stop) => end_stop(out, stop),
    }
}

/// All that `chaosplay` does: takes the words behind the program's name, reads the source or makes the mesh, and runs
/// it, over the data files of the arrays that it reads: with `--plain` on one machine; without, on nodes that take turns
/// and each hold their parts of the arrays alone. Then `played` becomes the turns that moved and the letters that were
/// sent; in every other case it stays. The call writes the text, with `--report` the report behind it, or the one line
/// of a refusal. The answer is the program's status.
///
/// Every answer has its cause in the clause `answer`. `complete` says that without a fault of the sink or of the files
/// that are named, the answer is what comes of the words, the source and the data, or want of memory. After 0 and 3
/// the text of the sequential run was written, and 3 says that it is refused: `ran`.
pub fn play_program<F: Files, S: Sink>(
    alloc: Global,
    words: &[String],
    files: &mut F,
    out: &mut S,
    played: &mut Played,
) -> u8
    ensures answer { PlayAnswered (asked (texts words.now))
        (files_read F.contents F.faults files.old files.new) result
        (leaves S.faults S.written out.old played.old)
        (leaves S.faults S.written out.new played.new) }
    ensures complete { PlayCompleted (asked (texts words.now))
        (files_read F.contents F.faults files.old files.new) result
        (leaves S.faults S.written out.old played.old)
        (leaves S.faults S.written out.new played.new) }

    // the headline: the text of the sequential run, and the refusal, for every source that is run
    ensures ran { IsRunStatus result → RanRight PlaysRun (asked (texts words.now))
        (files_read F.contents F.faults files.old files.new) result
        (leaves S.faults S.written out.old played.old)
        (leaves S.faults S.written out.new played.new) }

    // the outside
    ensures contents { F.contents files.new ≡ F.contents files.old }
    ensures faults { NoneFell (F.faults files.old) (F.faults files.new) }
    ensures failures { S.faults out.old ≤ S.faults out.new }
{
    let request = requested(alloc, words);
    play(alloc, &request, files, out, played)
}
