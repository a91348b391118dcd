ghost use Rattle.std.specs.Prelude.{◌≡◌, ◌++◌, ◌∷◌, [], map, OnOk, IfOk};
ghost use Rattle.fd_scope.specs.Heads.{with_loop_of, loop_names, layout_of, own_layout, array_facts, entered, after_entry, tables_of};
ghost use Rattle.fd_scope.specs.Heads.{head_of};
ghost use Rattle.fd_scope.specs.Heads.{head_faults};

use crate::declarations::enter_all;
use crate::{Alignment, ArrayEntry, Faults, LayoutEntry, LoopNames, Scope, Tables};
use fd_program::{ArrayFacts, LayoutName, LayoutNames};
use fd_syntax::{Program, Statement};
use fd_words::Memory;
use sqlite_items::Items;
use std::alloc::Global;

/// What the head of a program settles: what is declared, the facts of arrays and decompositions, and the
/// names that are the index or the variable of a loop somewhere in the program.
#[derive(Drop)]
pub struct Head {
    pub scope: Scope,
    pub tables: Tables,
    pub loops: LoopNames,
}

/// The number of the next thing behind so many. From 2^32 on there is no memory for them.
pub fn narrow(number: usize) -> Result<u32, Memory>
    ensures { IfOk result (λ n. n ≡ number) }
{
    match u32::try_from(number) {
        Ok(number) => Ok(number),
        Err(_) => Err(Memory),
    }
}

fn note_loop_name(names: &mut LoopNames, statement: &Statement) -> Result<(), Memory>
    ensures { OnOk result (names.new ≡ with_loop_of names.old statement.now) }
{
    match statement {
        Statement::Distribute {
            at: _,
            name: _,
            name_at: _,
            form: _,
        } => Ok(()),
        Statement::Print {
            at: _,
            name: _,
            name_at: _,
        } => Ok(()),
        Statement::Do {
            at: _,
            variable,
            variable_at: _,
            low: _,
            high: _,
            inside: _,
        } => names.add(*variable),
        Statement::Forall(all) => names.add(all.index),
    }
}

fn names_of_loops(alloc: Global, statements: &[Statement]) -> Result<LoopNames, Memory>
    ensures { IfOk result (λ n. n ≡ loop_names statements.now) }
{
    let mut names = LoopNames::new(alloc);
    for statement in statements {
        note_loop_name(&mut names, statement)?;
    }
    Ok(names)
}

fn layout(entry: &LayoutEntry) -> LayoutName
    ensures { result ≡ layout_of entry.now }
{
    LayoutName {
        name: entry.name,
        extent: entry.extent.unwrap_or(0),
    }
}

fn named_layouts(alloc: Global, entries: &[LayoutEntry]) -> Result<LayoutNames, Memory>
    ensures { IfOk result (λ l. l ≡ map layout_of entries.now) }
{
    let mut layouts = Items::new(alloc);
    for entry in entries {
        layouts.push(layout(entry))?;
    }
    Ok(layouts)
}

fn facts(entry: &ArrayEntry, decomposition: u32, offset: i64) -> ArrayFacts
    ensures { result ≡ array_facts entry.now decomposition offset }
{
    ArrayFacts {
        name: entry.name,
        extent: entry.extent.unwrap_or(0),
        decomposition,
        offset,
    }
}

fn own(entry: &ArrayEntry) -> LayoutName
    ensures { result ≡ own_layout entry.now }
{
    LayoutName {
        name: entry.name,
        extent: entry.extent.unwrap_or(0),
    }
}

impl Tables {
    fn push_array(&mut self, facts: ArrayFacts) -> Result<(), Memory>
        ensures { OnOk result (self.new ≡ record self.old { arrays = self.old.arrays ++ facts ∷ [] }) }
    {
        self.arrays.push(facts)?;
        Ok(())
    }

    fn enter(&mut self, entry: &ArrayEntry, aligned: Option<Alignment>) -> Result<(), Memory>
        ensures { OnOk result (self.new ≡ entered self.old entry.now aligned) }
    {
        match aligned {
            None => {
                let number = narrow(self.layouts.len())?;
                self.layouts.push(own(entry))?;
                self.push_array(facts(entry, number, 0))
            }
            Some(to) => {
                let number = to.decomposition.unwrap_or(0);
                self.push_array(facts(entry, number, to.offset.unwrap_or(0)))
            }
        }
    }
}

fn tables(alloc: Global, scope: &Scope) -> Result<Tables, Memory>
    ensures { IfOk result (λ t. t ≡ tables_of scope.now) }
{
    let layouts = named_layouts(alloc, scope.layouts.as_slice())?;
    let mut tables = Tables {
        arrays: Items::new(alloc),
        layouts,
    };
    let entries = scope.arrays.as_slice();
    for entry in entries {
        tables.enter(entry, entry.aligned)?;
    }
    Ok(tables)
}

/// What the head of a program settles, with its faults.
pub fn head_facts(alloc: Global, program: &Program, faults: &mut Faults) -> Result<Head, Memory>
    ensures head { IfOk result (λ h. h ≡ head_of program.now) }
    ensures noted { OnOk result (faults.new ≡ faults.old ++ head_faults program.now) }
{
    let loops = names_of_loops(alloc, program.statements.as_slice())?;
    let scope = enter_all(alloc, &loops, faults, program.declarations.as_slice())?;
    let tables = tables(alloc, &scope)?;
    Ok(Head {
        scope,
        tables,
        loops,
    })
}
