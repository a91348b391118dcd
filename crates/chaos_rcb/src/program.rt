ghost use Rattle.std.specs.Prelude.{◌≡◌, ◌≤◌, Some, length, map, string_bytes};
ghost use Rattle.bsp_mail.specs.Mails.{IsFresh};
ghost use Rattle.fd_outside.specs.Causes.{NoneFell};
ghost use Rattle.fd_edge.specs.Endings.{leaves};
ghost use Rattle.fd_edge.specs.Readings.{files_read};
ghost use Rattle.chaos_rcb.specs.Asked.{asked_to_bisect, shown_asked};
ghost use Rattle.chaos_rcb.specs.Outcomes.{IsAnswered, IsCompleted, RanRight};

use crate::asked::{Asked, asked_by};
use crate::columns::columns;
use crate::running::run_bisect;
use bisect_node::Job;
use bsp_mail::Mail;
use fd_edge::{end, end_run, end_stop};
use fd_outside::{Files, Gate, Sink};
use std::alloc::Global;
use std::sync::Wait;
use std::thread::Threads;

const USAGE: &[u8] = b"usage: chaosbisect PARTS COUNT NODES FILE [FILE [FILE]]\n";

/// Reads the coordinates that are asked for, bisects the elements and writes their parts.
fn run_asked<R: Threads + Wait + Sync, F: Files, S: Sink, G: Gate>(
    rt: &R,
    alloc: Global,
    asked: &Asked<'_>,
    files: &mut F,
    out: &mut S,
    gate: &G,
    mail: &mut Mail,
) -> u8
    requires parts { (1 ≤ asked.now.parts) × (asked.now.parts ≤ 64) × (asked.now.parts ≤ asked.now.count) }
    requires count { asked.now.count ≤ 1048576 }
    requires nodes { (1 ≤ asked.now.nodes) × (asked.now.nodes ≤ 16) }
    requires axes { (1 ≤ length asked.now.files.now) × (length asked.now.files.now ≤ 3) }
    requires fresh { IsFresh mail.old.queues mail.old.seats.items }
    ensures answer { IsAnswered (Some (shown_asked asked.now)) (files_read F.contents F.faults files.old files.new) result
        (leaves S.faults S.written out.old mail.old) (leaves S.faults S.written out.new mail.new) }
    ensures queues { mail.new.queues ≡ mail.old.queues }
    ensures contents { F.contents files.new ≡ F.contents files.old }
    ensures faults { NoneFell (F.faults files.old) (F.faults files.new) }
    ensures failures { S.faults out.old ≤ S.faults out.new }
{
    match columns(alloc, files, asked.files, u64::from(asked.count)) {
        Ok(columns) => {
            let job = Job {
                parts: asked.parts,
                count: u64::from(asked.count),
                nodes: asked.nodes,
                axes: asked.files.len() as u32,
            };
            end_run(out, run_bisect(rt, alloc, &job, &columns, gate, mail))
        }
        Err(stop) => end_stop(out, stop),
    }
}

/// All that `chaosbisect` does: takes the words behind the program's name, reads the coordinates of elements, one file
/// for each axis, bisects the elements on nodes that run on threads and send one another letters by `mail`, and writes
/// the part of each element on a line. Each node passes `gate` before each of its works. The call writes the map, or
/// the one line that says why there is none. The answer is the program's status.
///
/// Every answer has its cause in the clause `answer`. It also says what the Mail is afterwards: where a line was to be
/// written, it is as it was; where a run's map was, each pair of nodes has exactly the letters that the regions and keys
/// of the bisection give, each taken as sent, and all other pairs have none; where memory was wanting, it is as it was or
/// has the first of such letters. `complete` says that without a fault of the sink or of the files that are named, the
/// answer is what comes of the words and the files, or want of memory. After 0 the map is that of the bisection, and the
/// first `COUNT mod PARTS` parts have one element more than the others (`ran`).
pub fn bisect_program<R: Threads + Wait + Sync, F: Files, S: Sink, G: Gate>(
    rt: &R,
    alloc: Global,
    words: &[String],
    files: &mut F,
    out: &mut S,
    gate: &G,
    mail: &mut Mail,
) -> u8
    requires fresh { IsFresh mail.old.queues mail.old.seats.items }
    ensures answer { IsAnswered (asked_to_bisect (map string_bytes words.now)) (files_read F.contents F.faults files.old files.new) result
        (leaves S.faults S.written out.old mail.old) (leaves S.faults S.written out.new mail.new) }
    ensures complete { IsCompleted (asked_to_bisect (map string_bytes words.now)) (files_read F.contents F.faults files.old files.new)
        result
        (leaves S.faults S.written out.old mail.old) (leaves S.faults S.written out.new mail.new) }
    ensures ran { result ≡ 0 → RanRight (asked_to_bisect (map string_bytes words.now))
        (files_read F.contents F.faults files.old files.new) result
        (leaves S.faults S.written out.old mail.old) (leaves S.faults S.written out.new mail.new) }

    // the outside
    ensures queues { mail.new.queues ≡ mail.old.queues }
    ensures contents { F.contents files.new ≡ F.contents files.old }
    ensures faults { NoneFell (F.faults files.old) (F.faults files.new) }
    ensures failures { S.faults out.old ≤ S.faults out.new }
{
    match asked_by(words) {
        Some(asked) => run_asked(rt, alloc, &asked, files, out, gate, mail),
        None => end(out, 2, USAGE),
    }
}
