//! Plays a program on its nodes, in turns on one thread.
#![tactic(auto)]

use fd_top::{HostFiles, HostSink, Played, play_program, words};
use std::process::ExitCode;

fn main(rt: HostRuntime) -> ExitCode {
    let words = match words(&rt) {
        Ok(words) => words,
        Err(stop) => return ExitCode::from(stop.status()),
    };
    let mut files = HostFiles::new(&rt);
    let mut out = HostSink::new(&rt);
    let mut played = Played::new(rt.alloc());
    let status = play_program(
        rt.alloc(),
        words.as_slice(),
        &mut files,
        &mut out,
        &mut played,
    );
    ExitCode::from(status)
}
