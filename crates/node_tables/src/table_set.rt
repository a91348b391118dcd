ghost use Rattle.std.specs.Prelude.{◌≡◌, ◌≤◌, ◌<◌, ℕ, ◌==◌, length, slice_set, replicate, if◌then◌else◌, MatchOption, IfOk, OnOk, OnErr};
ghost use Rattle.std.specs.FinMap as fin;
ghost use Rattle.chaos_hash.specs.Stamps.{cleared, mask_of, IsFree};
ghost use Rattle.plan_tables.specs.Tables.{no_table, table_at, entry_at, entered_in, dropped_in};

use chaos_hash::StampTable;
use fd_words::{Memory, Place};
use std::alloc::Global;
use std::marker::Model;

/// The stamped tables of a node, one for each decomposition; seen as the list of them. Their elements
/// are numbers from 1 to the greatest extent.
#[derive(Drop)]
pub struct TableSet {
    tables: Vec<StampTable>,
}

impl Model for TableSet {
    ghost use Rattle.std.specs.Prelude.{List};
    ghost use Rattle.std.specs.Coded.{coded_list};
    ghost use Rattle.chaos_hash.specs.Stamps.{Stamps, stamps_code};

    ghost Value = { List Stamps };

    ghost coded = { coded_list stamps_code };

    ghost use Rattle.plan_tables.specs.Tables.{AreTables};

    ghost view = { λ s. s.tables.items };

    ghost invariant = { λ s. AreTables s.tables.items };
}

impl TableSet {
    /// A table with no entry for each decomposition.
    pub fn new(alloc: Global, layouts: u32) -> Result<TableSet, Memory>
        ensures { IfOk result (λ tables. tables ≡ replicate layouts no_table) }
    {
        let mut tables = Vec::new(alloc);
        for _ in 0..layouts {
            tables.push(StampTable::new(alloc))?;
        }
        Ok(TableSet { tables })
    }

    /// The table of a decomposition.
    pub fn table(&self, decomposition: u32) -> &StampTable
        requires { decomposition < length self.now }
        ensures { result.now ≡ table_at self.now decomposition }
    {
        &self.tables[decomposition as usize]
    }

    pub fn len(&self) -> usize
        ensures { result ≡ length self.now }
    {
        self.tables.len()
    }

    /// Leaves no entry in the table of a decomposition, and takes no memory.
    pub fn drop_table(&mut self, decomposition: u32)
        requires { decomposition < length self.old }
        ensures { self.new ≡ dropped_in self.old decomposition }
    {
        let table = &mut self.tables[decomposition as usize];
        table.drop_all();
    }

    /// Takes a stamp from all entries of a decomposition, and takes no memory.
    pub fn clear(&mut self, decomposition: u32, stamp: u32)
        requires within { decomposition < length self.old }
        requires stamp { stamp < 128 }
        ensures entries { (d e : ℕ) → entry_at self.new d e ≡ (if d == decomposition then cleared (mask_of stamp) (entry_at self.old d e)
            else entry_at self.old d e) }
        ensures count { length self.new ≡ length self.old }
    {
        let table = &mut self.tables[decomposition as usize];
        table.clear(stamp);
    }

    /// Gives an element of a decomposition a stamp, and tells its slot.
    pub fn enter(
        &mut self,
        decomposition: u32,
        element: u64,
        place: Place,
        stamp: u32,
    ) -> Result<u32, Memory>
        requires within { decomposition < length self.old }
        requires from_one { 1 ≤ element }
        requires most { element ≤ 1048576 }
        requires stamp { stamp < 128 }
        ensures entered { IfOk result (λ slot. self.new ≡ entered_in self.old decomposition element place stamp slot) }
        ensures slot { IfOk result (λ slot. MatchOption (entry_at self.old decomposition element)
            (IsFree (table_at self.old decomposition).held slot) (λ h. slot ≡ h.slot)) }
        ensures err { OnErr result (self.new ≡ self.old) }
    {
        let table = &mut self.tables[decomposition as usize];
        table.enter(element, place, stamp)
    }

    /// Equal tables.
    pub fn copy(&self, alloc: Global) -> Result<TableSet, Memory>
        ensures { IfOk result (λ tables. tables ≡ self.now) }
    {
        let tables = copy_all(alloc, self.tables.as_slice())?;
        Ok(TableSet { tables })
    }
}

fn copy_all(alloc: Global, tables: &[StampTable]) -> Result<Vec<StampTable>, Memory>
    ensures { IfOk result (λ copy. copy.items ≡ tables.now) }
{
    let mut copy = Vec::new(alloc);
    for table in tables {
        copy.push(table.copy(alloc)?)?;
    }
    Ok(copy)
}
