//! Reads cases as text on standard input, and writes what comes of each.
//!
//! A case is some lines, with a line `==` behind them. Its first line is a word, which picks the call, and a title. What
//! stands in the next lines depends on the word:
//!
//! - `source`: the source. The line that refuses it comes, or `accepted`.
//! - `play`: a line of words, a line of data files, and the source, if there is one, which is the file a.fd. The status
//!   and the text of the nodes in turns, or of one machine, come; for `count` also the number of moves, for `moves` the
//!   node of each move, and for `letters` each letter that a node sent to another.
//! - `run`: likewise, of the nodes by threads.
//! - `append`, `bisect`: a line of words and a line of data files. The status and the text of the program that appends
//!   particles, or that bisects elements, come.
//!
//! The modules `text` and `call` say how sources and data files are written.
#![tactic(auto)]

mod call;
mod letters;
mod play;
mod source;
mod text;

use fd_words::Memory;
use play::{Program, Shown, play, run};
use source::refusal;
use std::alloc::Global;
use std::io;
use std::sync::Wait;
use std::thread::Threads;
use text::first_line;

/// What comes of a case.
fn told<R: Threads + Wait + Sync>(rt: &R, alloc: Global, case: &str) -> Result<String, Memory> {
    let (head, rest) = first_line(case);
    let (word, title) = head.split_once(' ').unwrap_or((head, ""));
    let mut told = format!(in alloc; "== {title}\n")?;
    match word {
        "source" => refusal(alloc, rest, &mut told)?,
        "play" => play(alloc, rest, Shown::Text, &mut told)?,
        "count" => play(alloc, rest, Shown::Count, &mut told)?,
        "moves" => play(alloc, rest, Shown::Moves, &mut told)?,
        "letters" => play(alloc, rest, Shown::Letters, &mut told)?,
        "run" => run(rt, alloc, Program::Run, rest, &mut told)?,
        "append" => run(rt, alloc, Program::Append, rest, &mut told)?,
        "bisect" => run(rt, alloc, Program::Bisect, rest, &mut told)?,
        _ => told.push_str("no such call\n")?,
    }
    Ok(told)
}

fn main(rt: HostRuntime) -> io::Result<()> {
    let alloc = rt.alloc();
    let mut case = String::new(alloc);
    for line in rt.lines(alloc) {
        let line = line?;
        if line.as_str() == "==" {
            match told(&rt, alloc, case.as_str()) {
                Ok(told) => print!(rt; "{told}")?,
                Err(_) => println!(rt; "no memory")?,
            }
            case.clear();
        } else {
            case.push_str(line.as_str())?;
            case.push_str("\n")?;
        }
    }
    Ok(())
}
