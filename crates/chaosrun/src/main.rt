//! Runs a program on its nodes, on threads.
#![tactic(auto)]

use fd_top::{HostFiles, HostSink, Mail, OpenGate, run_program, words};
use std::process::ExitCode;

fn main(rt: HostRuntime) -> ExitCode {
    let words = match words(&rt) {
        Ok(words) => words,
        Err(stop) => return ExitCode::from(stop.status()),
    };
    let Ok(mut mail) = Mail::new(rt.alloc()) else {
        return ExitCode::from(70);
    };
    let mut files = HostFiles::new(&rt);
    let mut out = HostSink::new(&rt);
    let status = run_program(
        &rt,
        rt.alloc(),
        words.as_slice(),
        &mut files,
        &mut out,
        &OpenGate,
        &mut mail,
    );
    ExitCode::from(status)
}
