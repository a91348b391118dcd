ghost use Rattle.std.specs.Prelude.{◌≡◌, ◌≢◌, ◌+◌, ◌-◌, ◌≤◌, ◌↔◌, ◌++◌, [], ℕ, List, Some, None, min, length, take, drop, IfOk, IfSome};
ghost use Rattle.std.specs.Prelude.{IsErr, OnOk, OnErr, option_map, slice_set};
ghost use Rattle.fd_outside.specs.Causes.{HasCause, GivesFrom, NoneFell, risen};
ghost use Rattle.fd_outside.specs.Named.{contents_of, faults_of, next_read, failing_reads, CannotRead, with_contents, after_fault};
ghost use Rattle.fd_outside.specs.Named.{bytes_in, faults_in, changed_in, marked, refilled};

use crate::count::one_more;
use crate::within::{Failed, Files};
use fd_words::{Bytes, Memory, Numbers};
use std::alloc::Global;

#[derive(Debug, Drop)]
struct MemoryFile {
    name: Bytes,
    bytes: Bytes,
    faults: u64,
}

/// Files in memory, by name. All names that aren't there share one count of faults.
#[derive(Debug, Drop)]
pub struct MemoryFiles {
    files: Vec<MemoryFile>,
    failing: Numbers,
    calls: u64,
    absent: u64,
}

impl MemoryFiles {
    /// No file. The reads whose numbers, from 0, are in `failing` fail.
    pub fn new(alloc: Global, failing: Numbers) -> MemoryFiles
        ensures contents { (name : List ℕ) → contents_of result name ≡ None }
        ensures faults { (name : List ℕ) → faults_of result name ≡ 0 }
        ensures calls { next_read result ≡ 0 }
        ensures failing { failing_reads result ≡ failing }
    {
        MemoryFiles {
            files: Vec::new(alloc),
            failing,
            calls: 0,
            absent: 0,
        }
    }

    /// Adds a file, or gives the file of this name other bytes. Each name keeps its count.
    pub fn add(&mut self, alloc: Global, name: &str, bytes: Bytes) -> Result<(), Memory>
        ensures held { OnOk result (contents_of self.new ≡ with_contents (contents_of self.old) name.now bytes) }
        ensures err { OnErr result (contents_of self.new ≡ contents_of self.old) }
        ensures faults { faults_of self.new ≡ faults_of self.old }
        ensures calls { next_read self.new ≡ next_read self.old }
        ensures failing { failing_reads self.new ≡ failing_reads self.old }
    {
        if bytes_named(self.files.as_slice(), name).is_none() {
            return self.add_new(alloc, name, bytes);
        }
        replace_in(&mut self.files, name, bytes);
        Ok(())
    }

    /// Adds a file whose name isn't there.
    fn add_new(&mut self, alloc: Global, name: &str, bytes: Bytes) -> Result<(), Memory>
        requires { contents_of self.old name.now ≡ None }
        ensures held { OnOk result (contents_of self.new ≡ with_contents (contents_of self.old) name.now bytes) }
        ensures err { OnErr result (contents_of self.new ≡ contents_of self.old) }
        ensures faults { faults_of self.new ≡ faults_of self.old }
        ensures calls { next_read self.new ≡ next_read self.old }
        ensures failing { failing_reads self.new ≡ failing_reads self.old }
    {
        let mut own_name = Bytes::new(alloc);
        own_name.append(name.as_bytes())?;
        self.files.push(MemoryFile {
            name: own_name,
            bytes,
            faults: self.absent,
        })?;
        Ok(())
    }

    /// Counts a fault of a name.
    fn count_fault(&mut self, name: &str)
        ensures same { contents_of self.new ≡ contents_of self.old }
        ensures counts { faults_of self.new ≡ after_fault self.old name.now }
        ensures calls { next_read self.new ≡ next_read self.old }
        ensures failing { failing_reads self.new ≡ failing_reads self.old }
    {
        if bytes_named(self.files.as_slice(), name).is_none() {
            self.absent = one_more(self.absent);
        } else {
            count_in(&mut self.files, name);
        }
    }
}

/// The bytes of the file of a name.
fn bytes_named<'a>(files: &'a [MemoryFile], name: &str) -> Option<&'a Bytes>
    ensures { option_map (λ b. b.now) result ≡ bytes_in files.now name.now }
{
    for file in files {
        if file.name.as_slice() == name.as_bytes() {
            return Some(&file.bytes);
        }
    }
    None
}

/// Counts a fault of the file of a name.
fn count_in(files: &mut Vec<MemoryFile>, name: &str)
    ensures { files.new.items ≡ changed_in marked files.old.items name.now }
{
    let mut place = 0;
    while place < files.len() {
        let file = &mut files[place];
        if file.name.as_slice() == name.as_bytes() {
            file.faults = one_more(file.faults);
            return;
        }
        place += 1;
    }
}

/// Gives the file of a name other bytes.
fn replace_in(files: &mut Vec<MemoryFile>, name: &str, bytes: Bytes)
    ensures { files.new.items ≡ changed_in (refilled bytes) files.old.items name.now }
{
    let mut place = 0;
    while place < files.len() {
        let file = &mut files[place];
        if file.name.as_slice() == name.as_bytes() {
            file.bytes = bytes;
            return;
        }
        place += 1;
    }
}

/// Copies bytes from a place on into the first places of a buffer, as many as there are and fit. This is what a read of a
/// file in memory gives.
pub fn copy_from(held: &[u8], at: u64, into: &mut [u8]) -> usize
    ensures count { result ≡ min (length into.old) (length (drop at held.now)) }
    ensures gives { GivesFrom held.now at result into.new }
{
    let start = (at as usize).min(held.len());
    let left = &held[start..];
    let count = left.len().min(into.len());
    into[..count].copy_from_slice(&left[..count]);
    count
}

impl Files for MemoryFiles {
    ghost contents = { contents_of };

    ghost faults = { faults_of };

    ghost reads = { next_read };

    /// It fails where its number is among the failing ones, or where there is no such file.
    fn read_at(&mut self, name: &str, at: u64, into: &mut [u8]) -> Result<usize, Failed>
        ensures most { IfOk result (λ n. n ≤ length into.old) }
        ensures bytes { IfOk result (λ n. IfSome (contents_of self.old name.now) (λ held. GivesFrom held at n into.new)) }
        ensures same { contents_of self.new ≡ contents_of self.old }
        ensures cause { HasCause (faults_of self.old name.now) (faults_of self.new name.now) result }
        ensures later { NoneFell (faults_of self.old) (faults_of self.new) }
        ensures counted { next_read self.new ≤ next_read self.old + 1 }

        ensures fails { IsErr result ↔ CannotRead self.old name.now }
        ensures takes { IfOk result (λ n. IfSome (contents_of self.old name.now)
            (λ held. n ≡ min (length into.old) (length (drop at held)))) }
        ensures counts { OnErr result (faults_of self.new ≡ after_fault self.old name.now) }
        ensures kept { OnOk result (faults_of self.new ≡ faults_of self.old) }
        ensures call { next_read self.new ≡ risen (next_read self.old) }
        ensures failing { failing_reads self.new ≡ failing_reads self.old }
    {
        let call = self.calls;
        self.calls = one_more(self.calls);
        let refused = self.failing.has(call);
        if refused {
            self.count_fault(name);
            return Err(Failed);
        }
        match bytes_named(self.files.as_slice(), name) {
            None => {
                self.count_fault(name);
                Err(Failed)
            }
            Some(bytes) => Ok(copy_from(bytes.as_slice(), at, into)),
        }
    }
}
