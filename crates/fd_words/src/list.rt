ghost use Rattle.std.specs.Prelude.{◌≡◌, [], ◌∷◌, ◌++◌, ◌==◌, length, slice_get, slice_set, OnOk, OnErr, IfOk};
ghost use Rattle.std.specs.Option.{option_copied};

use crate::Memory;
use std::alloc::Global;
use std::marker::Model;

/// Items in order, seen as a list.
#[derive(Debug, Drop)]
pub struct List<T> {
    pub(crate) items: Vec<T>,
}

impl<T> Model for List<T> {
    ghost use Rattle.std.specs.Prelude.{List};
    ghost use Rattle.std.specs.Coded.{coded_list};

    ghost Value = { List T };

    ghost coded = { coded_list T.code };

    ghost view = { λ l. l.items.items };
}

/// What can be made again, where there is memory.
pub trait Copied {
    /// An equal one.
    fn copied(&self, alloc: Global) -> Result<Self, Memory>
        ensures { IfOk result (λ it. it ≡ self.now) };
}

impl<T> List<T> {
    /// No item, which takes no memory.
    pub fn new(alloc: Global) -> List<T>
        ensures { result ≡ [] }
    {
        List {
            items: Vec::new(alloc),
        }
    }

    /// The items of a `Vec`, which takes no memory.
    pub fn from_vec(items: Vec<T>) -> List<T>
        ensures { result ≡ items.items }
    {
        List { items }
    }

    /// Gives the items back as a `Vec`, which takes no memory.
    pub fn into_vec(self) -> Vec<T>
        ensures { result.items ≡ self }
    {
        let List { items } = self;
        items
    }

    /// The item at a place from 0; none from the end on.
    pub fn get(&self, at: u64) -> Option<&T>
        ensures { option_copied result ≡ slice_get self.now at }
    {
        self.items.get(at as usize)
    }

    pub fn len(&self) -> u64
        ensures { result ≡ length self.now }
    {
        self.items.len() as u64
    }

    pub fn is_empty(&self) -> bool
        ensures { result ≡ (length self.now == 0) }
    {
        self.items.is_empty()
    }

    pub fn as_slice(&self) -> &[T]
        ensures { result.now ≡ self.now }
    {
        self.items.as_slice()
    }
}

impl<T: Drop> List<T> {
    /// Appends an item.
    pub fn push(&mut self, item: T) -> Result<(), Memory>
        ensures ok { OnOk result (self.new ≡ self.old ++ item ∷ []) }
        ensures err { OnErr result (self.new ≡ self.old) }
    {
        self.items.push(item)?;
        Ok(())
    }

    /// Puts another item at a place; nothing from the end on.
    pub fn put(&mut self, at: u64, item: T)
        ensures { self.new ≡ slice_set self.old at item }
    {
        if at < self.len() {
            self.items[at as usize] = item;
        }
    }
}

impl<T: Copied + Drop> List<T> {
    /// Equal items.
    pub fn copy(&self, alloc: Global) -> Result<List<T>, Memory>
        ensures { IfOk result (λ l. l ≡ self.now) }
    {
        let mut list = List::new(alloc);
        let all = self.items.as_slice();
        for item in all {
            list.push(item.copied(alloc)?)?;
        }
        Ok(list)
    }
}
