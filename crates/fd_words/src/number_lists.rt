ghost use Rattle.std.specs.Prelude.{◌≡◌, [], ◌++◌, length, pos, replicate, slice_get, slice_set, unwrap_or, OnOk, OnErr, IfOk};
ghost use Rattle.fd_words.specs.Lists.{list_at, pushed_at};

use crate::list::Copied;
use crate::{List, Memory, Numbers};
use std::alloc::Global;

/// Lists of numbers, as one per node or one per array; seen as a list of lists.
pub type NumberLists = List<Numbers>;

impl Copied for Numbers {
    fn copied(&self, alloc: Global) -> Result<Numbers, Memory> {
        self.copy(alloc)
    }
}

impl List<Numbers> {
    /// So many empty lists.
    pub fn empty(alloc: Global, count: u32) -> Result<NumberLists, Memory>
        ensures { IfOk result (λ lists. lists ≡ replicate count []) }
    {
        let mut lists = NumberLists::new(alloc);
        for _ in 0..count {
            lists.push(Numbers::new(alloc))?;
        }
        Ok(lists)
    }

    /// Appends a number to the list at a place; nothing from the end on.
    pub fn push_to(&mut self, at: u64, value: i64) -> Result<(), Memory>
        ensures ok { OnOk result (self.new ≡ pushed_at self.old at value) }
        ensures err { OnErr result (self.new ≡ self.old) }
    {
        if at < self.len() {
            let list = &mut self.items[at as usize];
            list.push(value)?;
        }
        Ok(())
    }

    /// Appends a row to the list at a place; nothing from the end on.
    pub fn append_to(&mut self, at: u64, row: &[i64]) -> Result<(), Memory>
        ensures ok { OnOk result (self.new ≡ slice_set self.old at (list_at self.old at ++ row.now)) }
        ensures err { OnErr result (self.new ≡ self.old) }
    {
        if at < self.len() {
            let list = &mut self.items[at as usize];
            list.append(row)?;
        }
        Ok(())
    }

    /// The number at a place of the list at a place; 0 where either isn't there.
    pub fn value_at(&self, list: u64, at: u64) -> i64
        ensures { result ≡ unwrap_or (slice_get (list_at self.now list) at) (pos 0) }
    {
        match self.get(list) {
            Some(numbers) => numbers.get(at).unwrap_or(0),
            None => 0,
        }
    }

    /// The length of the list at a place; 0 from the end on.
    pub fn len_at(&self, list: u64) -> u64
        ensures { result ≡ length (list_at self.now list) }
    {
        match self.get(list) {
            Some(numbers) => numbers.len(),
            None => 0,
        }
    }

    /// Changes the number at a place of the list at a place; nothing where either isn't there.
    pub fn set(&mut self, list: u64, at: u64, value: i64)
        ensures { self.new ≡ slice_set self.old list (slice_set (list_at self.old list) at value) }
    {
        if list < self.len() {
            let inner = &mut self.items[list as usize];
            inner.set(at, value);
        }
    }
}
