ghost use Rattle.std.specs.Prelude.{◌≡◌, ◌≤◌, Some, map, string_bytes};
ghost use Rattle.bsp_mail.specs.Mails.{IsFresh};
ghost use Rattle.fd_outside.specs.Causes.{NoneFell};
ghost use Rattle.fd_edge.specs.Endings.{leaves};
ghost use Rattle.fd_edge.specs.Readings.{files_read};
ghost use Rattle.chaos_append.specs.Asked.{asked_to_append, shown_asked};
ghost use Rattle.chaos_append.specs.Outcomes.{IsAnswered, IsCompleted, RanRight};

use crate::asked::{Asked, asked_by};
use crate::particles::read_particles;
use crate::running::run_append;
use append_node::AppendJob;
use bsp_mail::Mail;
use fd_edge::{end, end_run, end_stop};
use fd_outside::{Files, Gate, Sink};
use std::alloc::Global;
use std::sync::Wait;
use std::thread::Threads;

const USAGE: &[u8] = b"usage: chaosappend BINS STEPS COUNT NODES BINFILE VALUEFILE\n";

/// Reads the particles that are asked for, moves them and writes the lines.
fn run_asked<R: Threads + Wait + Sync, F: Files, S: Sink, G: Gate>(
    rt: &R,
    alloc: Global,
    asked: &Asked<'_>,
    files: &mut F,
    out: &mut S,
    gate: &G,
    mail: &mut Mail,
) -> u8
    requires bins { (1 ≤ asked.now.bins) × (asked.now.bins ≤ 65536) }
    requires steps { asked.now.steps ≤ 1000 }
    requires count { (1 ≤ asked.now.count) × (asked.now.count ≤ 1048576) }
    requires nodes { (1 ≤ asked.now.nodes) × (asked.now.nodes ≤ 16) }
    requires fresh { IsFresh mail.old.queues mail.old.seats.items }
    ensures answer { IsAnswered (Some (shown_asked asked.now))
        (files_read F.contents F.faults files.old files.new) result
        (leaves S.faults S.written out.old mail.old) (leaves S.faults S.written out.new mail.new) }
    ensures queues { mail.new.queues ≡ mail.old.queues }
    ensures contents { F.contents files.new ≡ F.contents files.old }
    ensures faults { NoneFell (F.faults files.old) (F.faults files.new) }
    ensures failures { S.faults out.old ≤ S.faults out.new }
{
    match read_particles(alloc, files, asked) {
        Ok(particles) => {
            let job = AppendJob {
                bins: u64::from(asked.bins),
                steps: u64::from(asked.steps),
                count: u64::from(asked.count),
                nodes: asked.nodes,
            };
            let run = run_append(
                rt,
                alloc,
                &job,
                &particles.bins,
                &particles.values,
                gate,
                mail,
            );
            end_run(out, run)
        }
        Err(stop) => end_stop(out, stop),
    }
}

/// All that `chaosappend` does: takes the words behind the program's name, reads the first bins and the values of the
/// particles, moves these for so many steps on nodes that run on threads and send one another letters by `mail`, and
/// writes for each bin the values of the particles that are there at the end, ascending. Each node passes `gate` before
/// each of its works. The call writes the lines, or the one line that says why there are none. The answer is the
/// program's status.
///
/// Every answer has its cause in the clause `answer`. It also says what the Mail is afterwards: where a line was to be
/// written, it is as it was; where a run's lines were, each pair of nodes has in each round how many particles follow
/// and then just these, as a bag those that the first node held before the round and whose bin the second owns in it,
/// each letter taken as sent, and all other pairs have none; where memory was wanting, it is as it was or has the first
/// of such letters. `complete` says that without a fault of the sink or of the files that are named, the answer is what
/// comes of the words and the files, or want of memory. After 0 the lines are those of the final bins (`ran`).
pub fn append_program<R: Threads + Wait + Sync, F: Files, S: Sink, G: Gate>(
    rt: &R,
    alloc: Global,
    words: &[String],
    files: &mut F,
    out: &mut S,
    gate: &G,
    mail: &mut Mail,
) -> u8
    requires fresh { IsFresh mail.old.queues mail.old.seats.items }
    ensures answer { IsAnswered (asked_to_append (map string_bytes words.now))
        (files_read F.contents F.faults files.old files.new) result
        (leaves S.faults S.written out.old mail.old) (leaves S.faults S.written out.new mail.new) }
    ensures complete { IsCompleted (asked_to_append (map string_bytes words.now))
        (files_read F.contents F.faults files.old files.new) result
        (leaves S.faults S.written out.old mail.old) (leaves S.faults S.written out.new mail.new) }
    ensures ran { result ≡ 0 → RanRight (asked_to_append (map string_bytes words.now))
        (files_read F.contents F.faults files.old files.new) result
        (leaves S.faults S.written out.old mail.old) (leaves S.faults S.written out.new mail.new) }

    // the outside
    ensures queues { mail.new.queues ≡ mail.old.queues }
    ensures contents { F.contents files.new ≡ F.contents files.old }
    ensures faults { NoneFell (F.faults files.old) (F.faults files.new) }
    ensures failures { S.faults out.old ≤ S.faults out.new }
{
    match asked_by(words) {
        Some(asked) => run_asked(rt, alloc, &asked, files, out, gate, mail),
        None => end(out, 2, USAGE),
    }
}
