ghost use Rattle.std.specs.Prelude.{◌≡◌, [], ◌∷◌, ◌++◌, ◌==◌, length, pos, replicate, slice_get, slice_set, OnOk, OnErr, IfOk};
ghost use Rattle.std.specs.List.{list_any};
ghost use Rattle.std.specs.Ordering.{int_eq};

use crate::Memory;
use std::alloc::Global;
use std::marker::Model;

/// Signed 64-bit numbers, seen as a list.
#[derive(Debug, Drop)]
pub struct Numbers {
    items: Vec<i64>,
}

impl Model for Numbers {
    ghost use Rattle.std.specs.Prelude.{List, ℤ};

    ghost Value = { List ℤ };

    ghost view = { λ n. n.items.items };
}

impl Numbers {
    /// An empty list, which takes no memory.
    pub fn new(alloc: Global) -> Numbers
        ensures { result ≡ [] }
    {
        Numbers {
            items: Vec::new(alloc),
        }
    }

    /// So many zeros.
    pub fn zeros(alloc: Global, count: u64) -> Result<Numbers, Memory>
        ensures { IfOk result (λ numbers. numbers ≡ replicate count (pos 0)) }
    {
        let items = vec![in alloc; 0; count as usize]?;
        Ok(Numbers { items })
    }

    /// The numbers of a `Vec`, which takes no memory.
    pub fn from_vec(items: Vec<i64>) -> Numbers
        ensures { result ≡ items.items }
    {
        Numbers { items }
    }

    /// Gives the numbers back as a `Vec`, which takes no memory.
    pub fn into_vec(self) -> Vec<i64>
        ensures { result.items ≡ self }
    {
        let Numbers { items } = self;
        items
    }

    /// Appends a number.
    pub fn push(&mut self, value: i64) -> Result<(), Memory>
        ensures ok { OnOk result (self.new ≡ self.old ++ value ∷ []) }
        ensures err { OnErr result (self.new ≡ self.old) }
    {
        self.items.push(value)?;
        Ok(())
    }

    /// Appends all of `more`.
    pub fn append(&mut self, more: &[i64]) -> Result<(), Memory>
        ensures ok { OnOk result (self.new ≡ self.old ++ more.now) }
        ensures err { OnErr result (self.new ≡ self.old) }
    {
        self.items.extend_from_slice(more)?;
        Ok(())
    }

    /// The number at a place from 0; none from the end on.
    pub fn get(&self, at: u64) -> Option<i64>
        ensures { result ≡ slice_get self.now at }
    {
        self.items.get(at as usize).copied()
    }

    /// Changes the number at a place; nothing from the end on.
    pub fn set(&mut self, at: u64, value: i64)
        ensures { self.new ≡ slice_set self.old at value }
    {
        if at < self.len() {
            self.items[at as usize] = value;
        }
    }

    pub fn len(&self) -> u64
        ensures { result ≡ length self.now }
    {
        self.items.len() as u64
    }

    pub fn is_empty(&self) -> bool
        ensures { result ≡ (length self.now == 0) }
    {
        self.items.is_empty()
    }

    /// Whether the list holds a number.
    pub fn has(&self, number: u64) -> bool
        ensures { result ≡ list_any (λ v. int_eq v (pos number)) self.now }
    {
        self.items
            .iter()
            .any(|v| i128::from(*v) == i128::from(number))
    }

    pub fn as_slice(&self) -> &[i64]
        ensures { result.now ≡ self.now }
    {
        self.items.as_slice()
    }

    /// An equal list.
    pub fn copy(&self, alloc: Global) -> Result<Numbers, Memory>
        ensures { IfOk result (λ n. n ≡ self.now) }
    {
        let items = Vec::from_slice(alloc, self.items.as_slice())?;
        Ok(Numbers { items })
    }
}
