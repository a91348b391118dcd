//! Runs by threads: with a gate that holds nodes for each other, and many times in a row.

use crate::calling::{comes_by_threads, files_of, repeated, sink, words_of};
use crate::programs::{CUBE, SWEEP, SWEPT};
use bsp_mail::Mail;
use fd_outside::Gate;
use fd_top::run_program;
use std::sync::atomic::{AtomicBool, AtomicU64, Ordering};
use std::test::Fail;
use std::thread;

/// Shows one array of zeros a hundred times: nodes 1 and 2 send their elements, and never take a letter.
const PRINTS: &str = "PROGRAM G\nINTEGER*8 Y(4)\nOUTPUT Y\nDO K = 1, 99\nPRINT Y\nEND DO\nEND\n";

/// Counts the passes of three nodes, and holds nodes 1 and 2 in each pass until the other has come as far.
#[derive(Drop)]
struct Holding {
    first: AtomicU64,
    second: AtomicU64,
    third: AtomicU64,
    failures: AtomicU64,
    open: AtomicBool,
}

impl Holding {
    fn new() -> Holding {
        Holding {
            first: AtomicU64::new(0),
            second: AtomicU64::new(0),
            third: AtomicU64::new(0),
            failures: AtomicU64::new(0),
            open: AtomicBool::new(false),
        }
    }

    fn fail(&self) {
        self.failures.fetch_add(1, Ordering::SeqCst);
    }

    /// Counts a pass, whose phase is the number of passes before it.
    fn count(&self, passes: &AtomicU64, phase: u64) {
        if passes.fetch_add(1, Ordering::SeqCst) != phase {
            self.fail();
        }
    }

    /// Waits until another node has as many passes. If it doesn't come, all pass at once from then on.
    fn wait_for(&self, other: &AtomicU64, passes: u64) {
        for _ in 0..10_000_000 {
            if self.open.load(Ordering::SeqCst) || other.load(Ordering::SeqCst) >= passes {
                return;
            }
            thread::yield_now();
        }
        self.fail();
        self.open.store(true, Ordering::SeqCst);
    }
}

impl Gate for Holding {
    fn pass(&self, node: u32, phase: u64) {
        match node {
            0 => self.count(&self.first, phase),
            1 => {
                self.count(&self.second, phase);
                self.wait_for(&self.third, phase.saturating_add(1));
            }
            2 => {
                self.count(&self.third, phase);
                self.wait_for(&self.second, phase.saturating_add(1));
            }
            _ => self.fail(),
        }
    }
}

/// Nodes work at once: nodes 1 and 2 come out of each pass only when both are in it.
#[test]
fn two_nodes_work_at_once(rt: HostRuntime) -> Result<(), Fail> {
    let alloc = rt.alloc();
    let words = words_of(alloc, "a.fd --nodes 3")?;
    let mut files = files_of(alloc, PRINTS, "", None)?;
    let mut out = sink(alloc, None)?;
    let mut mail = Mail::new(alloc)?;
    let gate = Holding::new();
    let written = repeated(alloc, "", "Y = 0 0 0 0\n", 100, "")?;
    let ended = run_program(
        &rt,
        alloc,
        words.as_slice(),
        &mut files,
        &mut out,
        &gate,
        &mut mail,
    );
    assert_eq!(rt; ended, 0);
    assert_eq!(rt; out.written(), written.as_bytes());
    assert_eq!(rt; gate.first.load(Ordering::SeqCst), 100);
    assert_eq!(rt; gate.second.load(Ordering::SeqCst), 100);
    assert_eq!(rt; gate.third.load(Ordering::SeqCst), 100);
    assert_eq!(rt; gate.failures.load(Ordering::SeqCst), 0);
    Ok(())
}

/// Sweeps by threads on more nodes than processors, twenty times in a row: one text.
#[test]
fn sweeps_in_a_row(rt: HostRuntime) -> Result<(), Fail> {
    for _ in 0..20 {
        let files = files_of(rt.alloc(), SWEEP, CUBE, None)?;
        let out = sink(rt.alloc(), None)?;
        comes_by_threads(&rt, rt.alloc(), "a.fd --nodes 16", files, out, 0, SWEPT)?;
    }
    Ok(())
}
