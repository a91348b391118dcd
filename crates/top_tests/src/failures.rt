//! Reads and writes that fail.

use crate::calling::{comes, comes_by_threads, files_of, sink};
use crate::programs::{ADDED, ADDS};
use std::test::Fail;

/// The status, and what was written, where the read or the write with a number fails.
#[test]
fn failures(rt: HostRuntime) -> Result<(), Fail> {
    let alloc = rt.alloc();
    let cases = [
        ("a.fd --plain", None, Some(0), 74, ""),
        ("a.fd --plain", None, Some(1), 74, "Y = 4"),
        ("a.fd --nodes 2", None, Some(1), 74, "Y = 4"),
        ("a.fd --nodes 2", None, Some(2), 74, "Y = 40 30 "),
        ("a.fd --plain", Some(2), None, 69, "cannot read x.csv\n"),
        ("a.fd --nodes 2", Some(4), None, 69, "cannot read ia.csv\n"),
        ("a.fd --nodes 17", None, Some(0), 74, ""),
    ];
    for (words, read_fails, write_fails, status, written) in cases.as_slice() {
        let files = files_of(alloc, ADDS, ADDED, *read_fails)?;
        let out = sink(alloc, *write_fails)?;
        comes(&rt, alloc, words, files, out, *status, written)?;
        if !words.contains("--plain") {
            let files = files_of(alloc, ADDS, ADDED, *read_fails)?;
            let out = sink(alloc, *write_fails)?;
            comes_by_threads(&rt, alloc, words, files, out, *status, written)?;
        }
    }
    Ok(())
}
