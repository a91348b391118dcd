ghost use Rattle.std.specs.Prelude.{◌≡◌, ◌++◌, ◌||◌, Some, slice_get, OnOk, IfOk};
ghost use Rattle.fd_checks.specs.Walks.{passed, variables_of, around, with_statement, own_decomposition, meant_decomposition};
ghost use Rattle.fd_checks.specs.Walks.{array_extent, meant_extent, is_other_extent, map_faults, size_of, size_faults, form_faults};
ghost use Rattle.fd_checks.specs.Walks.{form_resolved, distribute_faults, distribute_resolved, do_faults, after_do, site_of, with_site};
ghost use Rattle.fd_checks.specs.Walks.{walked_loop, loop_head_faults, loop_faults, after_statement, statement_faults, step, step_faults};
ghost use Rattle.fd_scope.specs.Scope.{is_declared, entry_extent_of};
ghost use Rattle.std.specs.List.{list_any};
ghost use Rattle.fd_scope.specs.Names.{name_eq};

use crate::walk::{Open, OpenList, Walk};
use chaos_dist::{Shape, StepForm};
use fd_loops::{Draft, UsedStamps, loop_body};
use fd_program::{CheckedStatement, Site, decomposition};
use fd_resolve::{Around, array_named, array_or_zero, note_array, note_scalar, resolve, same_name};
use fd_scope::{
    ArrayEntry, Faults, Head, Known, LayoutEntry, Meaning, as_extent, declared_value, narrow,
    note_bad_extent,
};
use fd_syntax::{Form, Loop, Scalar, Statement};
use fd_words::{Memory, Name, SourceCause, SourcePlace};
use sqlite_items::Items;
use std::alloc::Global;

/// The most FORALLs.
const MOST_LOOPS: usize = 128;

/// The DOs around the next statement.
fn still_open(alloc: Global, list: &[Open]) -> Result<OpenList, Memory>
    ensures { IfOk result (λ o. o ≡ passed list.now) }
{
    let mut inner = Items::new(alloc);
    for one in list {
        if 0 < one.left {
            inner.push(Open {
                name: one.name,
                left: one.left - 1,
            })?;
        }
    }
    Ok(inner)
}

fn names_of(alloc: Global, list: &[Open]) -> Result<Items<Name>, Memory>
    ensures { IfOk result (λ n. n ≡ variables_of list.now) }
{
    let mut names = Items::new(alloc);
    for one in list {
        names.push(one.name)?;
    }
    Ok(names)
}

fn around_at(alloc: Global, walk: &Walk, here: SourcePlace) -> Result<Around, Memory>
    ensures { IfOk result (λ a. a ≡ around walk.now here) }
{
    let variables = names_of(alloc, walk.outer.as_slice())?;
    Ok(Around { here, variables })
}

fn is_variable(variables: &[Name], name: Name) -> bool
    ensures { result ≡ list_any (name_eq name) variables.now }
{
    variables.iter().any(|other| same_name(name, *other))
}

fn is_taken(head: &Head, around: &Around, name: Name) -> bool
    ensures { result ≡ is_declared head.now.scope name || list_any (name_eq name) around.now.variables }
{
    head.scope.is_known(name) || is_variable(around.variables.as_slice(), name)
}

impl Walk {
    fn push_statement(&mut self, statement: CheckedStatement) -> Result<(), Memory>
        ensures { OnOk result (self.new ≡ with_statement self.old statement) }
    {
        self.statements.push(statement)?;
        Ok(())
    }
}

fn entry_at(head: &Head, array: u32) -> Option<ArrayEntry>
    ensures { result ≡ slice_get head.now.scope.arrays array }
{
    head.scope.arrays.as_slice().get(array as usize).copied()
}

fn own_of(head: &Head, array: u32, entry: Option<ArrayEntry>) -> Option<u32>
    ensures { result ≡ own_decomposition head.now array entry }
{
    match entry {
        None => None,
        Some(entry) => {
            if entry.aligned.is_some() {
                None
            } else {
                Some(decomposition(head.tables.arrays.as_slice(), array))
            }
        }
    }
}

/// The decomposition that a DISTRIBUTE names.
fn decomposition_meant(head: &Head, known: Option<Known>) -> Option<u32>
    ensures { result ≡ meant_decomposition head.now known }
{
    match known?.meaning {
        Meaning::Constant(_) => None,
        Meaning::Array(array) => own_of(head, array, entry_at(head, array)),
        Meaning::Decomposition(decomposition) => Some(decomposition),
    }
}

fn extent_of_array(entry: Option<ArrayEntry>) -> Option<u64>
    ensures { result ≡ array_extent entry }
{
    entry?.extent
}

fn extent_of_layout(layouts: &[LayoutEntry], number: u32) -> Option<u64>
    ensures { result ≡ entry_extent_of layouts.now (Some number) }
{
    layouts.get(number as usize)?.extent
}

fn extent_meant(head: &Head, known: Option<Known>) -> Option<u64>
    ensures { result ≡ meant_extent head.now known }
{
    match known?.meaning {
        Meaning::Constant(_) => None,
        Meaning::Array(array) => extent_of_array(entry_at(head, array)),
        Meaning::Decomposition(number) => extent_of_layout(head.scope.layouts.as_slice(), number),
    }
}

fn other_extent(extent: Option<u64>, whole: Option<u64>) -> bool
    ensures { result ≡ is_other_extent extent whole }
{
    match extent {
        None => false,
        Some(extent) => match whole {
            None => false,
            Some(whole) => !(extent == whole),
        },
    }
}

fn note_map(
    head: &Head,
    around: &Around,
    faults: &mut Faults,
    name: Name,
    map_name: Name,
    map_at: SourcePlace,
) -> Result<(), Memory>
    ensures noted { OnOk result (faults.new ≡ faults.old ++ map_faults head.now around.now name map_name map_at) }
{
    let is_array = array_named(head, around, map_name).is_some();
    let extent = extent_meant(head, head.scope.names.known(around.here, map_name));
    let whole = extent_meant(head, head.scope.names.known(around.here, name));
    let is_other = other_extent(extent, whole);
    note_array(head, around, faults, map_name, map_at)?;
    faults.note_if(is_array && is_other, map_at, SourceCause::MapLength)
}

fn note_size(
    head: &Head,
    around: &Around,
    faults: &mut Faults,
    size: &Scalar,
    at: SourcePlace,
) -> Result<Option<u64>, Memory>
    ensures value { IfOk result (λ n. n ≡ size_of head.now around.now size.now) }
    ensures noted { OnOk result (faults.new ≡ faults.old ++ size_faults head.now around.now size.now at) }
{
    let value = declared_value(&head.scope.names, around.here, &head.loops, faults, size)?;
    note_bad_extent(faults, at, value)?;
    Ok(as_extent(value))
}

fn form_of(
    head: &Head,
    around: &Around,
    faults: &mut Faults,
    name: Name,
    form: &Form,
) -> Result<StepForm, Memory>
    ensures form { IfOk result (λ f. f ≡ form_resolved head.now around.now form.now) }
    ensures noted { OnOk result (faults.new ≡ faults.old ++ form_faults head.now around.now name form.now) }
{
    match form {
        Form::Block => Ok(StepForm::Regular(Shape::Block)),
        Form::Cyclic => Ok(StepForm::Regular(Shape::Cyclic)),
        Form::BlockCyclic { size, at } => {
            let size = note_size(head, around, faults, size, *at)?;
            Ok(StepForm::Regular(Shape::BlockCyclic(size.unwrap_or(1))))
        }
        Form::Map {
            name: map_name,
            at: map_at,
        } => {
            note_map(head, around, faults, name, *map_name, *map_at)?;
            Ok(StepForm::Map(array_or_zero(head, around, *map_name)))
        }
    }
}

fn distribute(
    head: &Head,
    around: &Around,
    faults: &mut Faults,
    at: SourcePlace,
    name: Name,
    name_at: SourcePlace,
    form: &Form,
) -> Result<CheckedStatement, Memory>
    ensures statement { IfOk result (λ s. s ≡ distribute_resolved head.now around.now at name form.now) }
    ensures noted { OnOk result (faults.new ≡ faults.old ++ distribute_faults head.now around.now name name_at form.now) }
{
    let decomposition = decomposition_meant(head, head.scope.names.known(around.here, name));
    let is_unknown = decomposition.is_none();
    faults.note_if(is_unknown, name_at, SourceCause::Unknown(name))?;
    let form = form_of(head, around, faults, name, form)?;
    Ok(CheckedStatement::Distribute {
        at,
        decomposition: decomposition.unwrap_or(0),
        form,
    })
}

fn note_do(
    head: &Head,
    around: &Around,
    faults: &mut Faults,
    variable: Name,
    variable_at: SourcePlace,
    low: &Scalar,
    high: &Scalar,
) -> Result<(), Memory>
    ensures noted { OnOk result (faults.new ≡ faults.old ++ do_faults head.now around.now variable variable_at low.now high.now) }
{
    let is_taken = is_taken(head, around, variable);
    faults.note_if(is_taken, variable_at, SourceCause::Twice(variable))?;
    note_scalar(head, around, faults, low)?;
    note_scalar(head, around, faults, high)
}

fn add_do(
    alloc: Global,
    head: &Head,
    around: &Around,
    walk: &mut Walk,
    at: SourcePlace,
    variable: Name,
    low: &Scalar,
    high: &Scalar,
    inside: u32,
) -> Result<(), Memory>
    ensures { OnOk result (walk.new ≡ after_do head.now around.now walk.old at variable low.now high.now inside) }
{
    let low = resolve(alloc, head, around, low)?;
    let high = resolve(alloc, head, around, high)?;
    walk.outer.push(Open {
        name: variable,
        left: inside,
    })?;
    walk.push_statement(CheckedStatement::Do {
        at,
        low,
        high,
        inside,
    })
}

fn copy_used(alloc: Global, used: &UsedStamps) -> Result<UsedStamps, Memory>
    ensures { IfOk result (λ u. u ≡ used.now) }
{
    Ok(Items::from_slice(alloc, used.as_slice())?)
}

fn note_loop(
    head: &Head,
    around: &Around,
    walk: &Walk,
    faults: &mut Faults,
    all: &Loop,
) -> Result<(), Memory>
    ensures noted { OnOk result (faults.new ≡ faults.old ++ loop_head_faults head.now around.now walk.now all.now) }
{
    let is_full = MOST_LOOPS <= walk.sites.len();
    faults.note_if(is_full, all.at, SourceCause::TooManyLoops)?;
    let is_taken = is_taken(head, around, all.index);
    faults.note_if(is_taken, all.index_at, SourceCause::Twice(all.index))?;
    note_scalar(head, around, faults, &all.low)?;
    note_scalar(head, around, faults, &all.high)
}

/// Adds a FORALL whose body is through.
fn add_site(
    alloc: Global,
    head: &Head,
    around: &Around,
    walk: &mut Walk,
    all: &Loop,
    draft: Draft,
) -> Result<(), Memory>
    ensures { OnOk result (walk.new ≡ with_site walk.old (site_of head.now around.now all.now draft) draft.used) }
{
    let number = narrow(walk.sites.len())?;
    let low = resolve(alloc, head, around, &all.low)?;
    let high = resolve(alloc, head, around, &all.high)?;
    let Draft {
        references,
        terms,
        body,
        used,
        ..
    } = draft;
    walk.sites.push(Site {
        at: all.at,
        low,
        high,
        body,
        references,
        terms,
    })?;
    walk.used = used;
    walk.push_statement(CheckedStatement::Forall(number))
}

fn add_loop(
    alloc: Global,
    head: &Head,
    around: &Around,
    walk: &mut Walk,
    faults: &mut Faults,
    all: &Loop,
) -> Result<(), Memory>
    ensures walk { OnOk result (walk.new ≡ walked_loop head.now around.now walk.old all.now) }
    ensures noted { OnOk result (faults.new ≡ faults.old ++ loop_faults head.now around.now walk.old all.now) }
{
    note_loop(head, around, walk, faults, all)?;
    let used = copy_used(alloc, &walk.used)?;
    let draft = loop_body(
        alloc,
        head,
        around,
        all.index,
        used,
        faults,
        all.body.as_slice(),
    )?;
    add_site(alloc, head, around, walk, all, draft)
}

fn add_statement(
    alloc: Global,
    head: &Head,
    walk: &mut Walk,
    faults: &mut Faults,
    statement: &Statement,
) -> Result<(), Memory>
    ensures walk { OnOk result (walk.new ≡ after_statement head.now walk.old statement.now) }
    ensures noted { OnOk result (faults.new ≡ faults.old ++ statement_faults head.now walk.old statement.now) }
{
    match statement {
        Statement::Distribute {
            at,
            name,
            name_at,
            form,
        } => {
            let around = around_at(alloc, walk, *at)?;
            let distribute = distribute(head, &around, faults, *at, *name, *name_at, form)?;
            walk.push_statement(distribute)
        }
        Statement::Print { at, name, name_at } => {
            let around = around_at(alloc, walk, *at)?;
            note_array(head, &around, faults, *name, *name_at)?;
            walk.push_statement(CheckedStatement::Print {
                at: *at,
                array: array_or_zero(head, &around, *name),
            })
        }
        Statement::Do {
            at,
            variable,
            variable_at,
            low,
            high,
            inside,
        } => {
            let around = around_at(alloc, walk, *at)?;
            note_do(head, &around, faults, *variable, *variable_at, low, high)?;
            add_do(
                alloc, head, &around, walk, *at, *variable, low, high, *inside,
            )
        }
        Statement::Forall(all) => {
            let around = around_at(alloc, walk, all.at)?;
            add_loop(alloc, head, &around, walk, faults, all)
        }
    }
}

/// The next statement of a program, with its faults.
pub(crate) fn step_over(
    alloc: Global,
    head: &Head,
    walk: &mut Walk,
    faults: &mut Faults,
    statement: &Statement,
) -> Result<(), Memory>
    ensures walk { OnOk result (walk.new ≡ step head.now walk.old statement.now) }
    ensures noted { OnOk result (faults.new ≡ faults.old ++ step_faults head.now walk.old statement.now) }
{
    let outer = still_open(alloc, walk.outer.as_slice())?;
    walk.outer = outer;
    add_statement(alloc, head, walk, faults, statement)
}
