ghost use Rattle.std.specs.Prelude.{◌≡◌, [], OnOk, OnErr};
ghost use Rattle.chaos_move.specs.Moves.{put_at, value_at};
ghost use Rattle.chaos_move.specs.Undoing.{put_back, taken_back};

use fd_words::{Memory, NumberLists};
use std::alloc::Global;
use std::marker::Model;

/// What stood at a place of a list before a write.
#[derive(Clone, Copy, Debug)]
pub struct Kept {
    pub list: u64,
    pub at: u64,
    pub old: i64,
}

/// What stood at the places of writes, in the order of the writes.
#[derive(Drop)]
pub struct Undo {
    kept: Vec<Kept>,
}

impl Model for Undo {
    ghost use Rattle.std.specs.Prelude.{List};
    ghost use Rattle.chaos_move.specs.declared.undo.Kept.{Kept};

    ghost Value = { List Kept };

    ghost view = { λ u. u.kept.items };
}

impl Undo {
    /// No write.
    pub fn new(alloc: Global) -> Undo
        ensures { result ≡ [] }
    {
        Undo {
            kept: Vec::new(alloc),
        }
    }

    /// Another number at a place of a list, where the one that stood there is kept; nothing outside.
    pub fn write(
        &mut self,
        lists: &mut NumberLists,
        list: u64,
        at: u64,
        value: i64,
    ) -> Result<(), Memory>
        ensures ok { OnOk result (lists.new ≡ put_at lists.old list at value) }
        ensures back { taken_back self.new lists.new ≡ taken_back self.old lists.old }
    {
        let kept = stands_at(lists, list, at);
        self.kept.push(kept)?;
        put(lists, list, at, value);
        Ok(())
    }

    /// Takes all writes back, the last first. It takes no memory.
    pub fn take_back(&mut self, lists: &mut NumberLists)
        ensures back { lists.new ≡ taken_back self.old lists.old }
        ensures none { self.new ≡ [] }
    {
        while let Some(kept) = self.kept.pop() {
            put_back(kept, lists);
        }
    }

    /// The writes stay.
    pub fn clear(&mut self)
        ensures { self.new ≡ [] }
    {
        self.kept.clear();
    }
}

fn put(lists: &mut NumberLists, list: u64, at: u64, value: i64)
    ensures { lists.new ≡ put_at lists.old list at value }
{
    lists.set(list, at, value);
}

fn put_back(kept: Kept, lists: &mut NumberLists)
    ensures { lists.new ≡ put_back kept lists.old }
{
    lists.set(kept.list, kept.at, kept.old);
}

/// What stands at a place.
fn stands_at(lists: &NumberLists, list: u64, at: u64) -> Kept
    ensures list { result.list ≡ list }
    ensures at { result.at ≡ at }
    ensures old { result.old ≡ value_at lists.now list at }
{
    Kept {
        list,
        at,
        old: lists.value_at(list, at),
    }
}
