ghost use Rattle.std.specs.Prelude.{◌≡◌, [], ◌∷◌, ◌++◌, ◌==◌, Some, pos, fold, OnOk, IfOk};
ghost use Rattle.std.specs.List.{list_any};
ghost use Rattle.fd_program.specs.declared.array.OutputName.{OutputName};
ghost use Rattle.fd_scope.specs.Faults.{along};
ghost use Rattle.fd_scope.specs.Names.{as_array, as_decomposition};
ghost use Rattle.fd_scope.specs.Scalars.{scalar_within, offset_faults};
ghost use Rattle.fd_scope.specs.Scope.{is_declared, is_extent, extent_within, bad_extent, extent_of, extent_faults, after_parameter};
ghost use Rattle.fd_scope.specs.Scope.{parameter_faults, after_array, array_faults, after_layout, layout_faults, sized_faults, is_outside};
ghost use Rattle.fd_scope.specs.Scope.{entry_extent_of, array_named, aligned_faults, listed_faults, after_aligned, alignment_of};
ghost use Rattle.fd_scope.specs.Scope.{target_faults, after_declaration, declaration_faults, declared, declared_faults, nothing};
ghost use Rattle.fd_scope.specs.Scope.{arrays_aligned, is_array_read, is_output, again_faults, reads_with, outputs_with, after_read};
ghost use Rattle.fd_scope.specs.Scope.{read_faults};
ghost use Rattle.fd_scope.specs.Scope.{after_output, output_faults};

use crate::scalars::{declared_offset, declared_value};
use crate::{
    Alignment, ArrayEntries, ArrayEntry, Faults, Known, LayoutEntry, LoopNames, Meaning, Names,
    Scope,
};
use fd_program::{OutputName, OutputNames};
use fd_syntax::{Declaration, Listed, Parameter, SizedName, Term};
use fd_words::{Memory, Name, Numbers, SourceCause, SourcePlace};
use sqlite_items::Items;
use std::alloc::Global;

/// The most arrays, and the most named decompositions.
const MOST_NAMES: usize = 64;

/// The number of a name that is an array.
pub fn array_number(known: Option<Known>) -> Option<u32>
    ensures { result ≡ as_array known }
{
    match known?.meaning {
        Meaning::Array(number) => Some(number),
        _ => None,
    }
}

/// The number of a name that is a named decomposition.
fn decomposition_number(known: Option<Known>) -> Option<u32>
    ensures { result ≡ as_decomposition known }
{
    match known?.meaning {
        Meaning::Decomposition(number) => Some(number),
        _ => None,
    }
}

impl Scope {
    /// Nothing is declared.
    pub fn new(alloc: Global) -> Scope
        ensures { result ≡ nothing }
    {
        Scope {
            names: Names::new(alloc),
            arrays: Items::new(alloc),
            layouts: Items::new(alloc),
            reads: Numbers::new(alloc),
            outputs: Items::new(alloc),
        }
    }

    pub fn is_known(&self, name: Name) -> bool
        ensures { result ≡ is_declared self.now name }
    {
        self.names.find(name).is_some()
    }
}

fn in_extent(value: i64) -> bool
    ensures { result ≡ is_extent value }
{
    value >= 1 && value <= 1_048_576
}

/// A value that is an extent.
pub fn as_extent(value: Option<i64>) -> Option<u64>
    ensures { result ≡ extent_within value }
{
    match value {
        Some(value) => {
            if in_extent(value) {
                Some(value as u64)
            } else {
                None
            }
        }
        None => None,
    }
}

/// Notes a value that is no extent.
pub fn note_bad_extent(
    faults: &mut Faults,
    at: SourcePlace,
    value: Option<i64>,
) -> Result<(), Memory>
    ensures noted { OnOk result (faults.new ≡ faults.old ++ bad_extent at value) }
{
    match value {
        Some(value) => faults.note_if(!in_extent(value), at, SourceCause::BadExtent),
        None => Ok(()),
    }
}

fn extent(
    scope: &Scope,
    loops: &LoopNames,
    faults: &mut Faults,
    sized: &SizedName,
) -> Result<Option<u64>, Memory>
    ensures value { IfOk result (λ v. v ≡ extent_of scope.now sized.now) }
    ensures noted { OnOk result (faults.new ≡ faults.old ++ extent_faults scope.now loops.now sized.now) }
{
    let value = declared_value(&scope.names, sized.at, loops, faults, &sized.extent)?;
    note_bad_extent(faults, sized.extent_at, value)?;
    Ok(as_extent(value))
}

fn enter_parameter(
    scope: &mut Scope,
    loops: &LoopNames,
    faults: &mut Faults,
    parameter: &Parameter,
) -> Result<(), Memory>
    ensures scope { OnOk result (scope.new ≡ after_parameter scope.old parameter.now) }
    ensures noted { OnOk result (faults.new ≡ faults.old ++ parameter_faults loops.now scope.old parameter.now) }
{
    let is_known = scope.is_known(parameter.name);
    faults.note_if(is_known, parameter.at, SourceCause::Twice(parameter.name))?;
    let value = declared_value(&scope.names, parameter.at, loops, faults, &parameter.value)?;
    if is_known {
        return Ok(());
    }
    let known = Known {
        at: parameter.at,
        meaning: Meaning::Constant(value),
    };
    scope.names.add(parameter.name, known)
}

fn note_sized(
    scope: &Scope,
    is_full: bool,
    loops: &LoopNames,
    faults: &mut Faults,
    sized: &SizedName,
) -> Result<Option<u64>, Memory>
    ensures value { IfOk result (λ v. v ≡ extent_of scope.now sized.now) }
    ensures noted { OnOk result (faults.new ≡ faults.old ++ sized_faults is_full loops.now scope.now sized.now) }
{
    let is_known = scope.is_known(sized.name);
    faults.note_if(is_full, sized.at, SourceCause::TooManyNames)?;
    faults.note_if(is_known, sized.at, SourceCause::Twice(sized.name))?;
    extent(scope, loops, faults, sized)
}

fn enter_array(
    scope: &mut Scope,
    loops: &LoopNames,
    faults: &mut Faults,
    sized: &SizedName,
) -> Result<(), Memory>
    ensures scope { OnOk result (scope.new ≡ after_array scope.old sized.now) }
    ensures noted { OnOk result (faults.new ≡ faults.old ++ array_faults loops.now scope.old sized.now) }
{
    let number = scope.arrays.len();
    let is_full = MOST_NAMES <= number;
    let extent = note_sized(scope, is_full, loops, faults, sized)?;
    if is_full || scope.is_known(sized.name) {
        return Ok(());
    }
    let known = Known {
        at: sized.at,
        meaning: Meaning::Array(number as u32),
    };
    scope.names.add(sized.name, known)?;
    let entry = ArrayEntry {
        name: sized.name,
        extent,
        aligned: None,
    };
    match scope.arrays.push(entry) {
        Ok(()) => Ok(()),
        Err(_) => Err(Memory),
    }
}

fn enter_layout(
    scope: &mut Scope,
    loops: &LoopNames,
    faults: &mut Faults,
    sized: &SizedName,
) -> Result<(), Memory>
    ensures scope { OnOk result (scope.new ≡ after_layout scope.old sized.now) }
    ensures noted { OnOk result (faults.new ≡ faults.old ++ layout_faults loops.now scope.old sized.now) }
{
    let number = scope.layouts.len();
    let is_full = MOST_NAMES <= number;
    let extent = note_sized(scope, is_full, loops, faults, sized)?;
    if is_full || scope.is_known(sized.name) {
        return Ok(());
    }
    let known = Known {
        at: sized.at,
        meaning: Meaning::Decomposition(number as u32),
    };
    scope.names.add(sized.name, known)?;
    let entry = LayoutEntry {
        name: sized.name,
        extent,
    };
    match scope.layouts.push(entry) {
        Ok(()) => Ok(()),
        Err(_) => Err(Memory),
    }
}

fn array_of(scope: &Scope, name: Name) -> Option<ArrayEntry>
    ensures { result ≡ array_named scope.now name }
{
    match array_number(scope.names.find(name)) {
        Some(number) => scope.arrays.get(number as usize).copied(),
        None => None,
    }
}

fn extent_of_layout(layouts: &[LayoutEntry], decomposition: Option<u32>) -> Option<u64>
    ensures { result ≡ entry_extent_of layouts.now decomposition }
{
    layouts.get(decomposition? as usize)?.extent
}

fn outside(offset: Option<i64>, extent: Option<u64>, whole: Option<u64>) -> bool
    ensures { result ≡ is_outside offset extent whole }
{
    match offset {
        Some(offset) => match extent {
            Some(extent) => match whole {
                Some(whole) => {
                    offset < 0 || i128::from(whole) < i128::from(extent) + i128::from(offset)
                }
                None => false,
            },
            None => false,
        },
        None => false,
    }
}

fn note_aligned(
    faults: &mut Faults,
    to: Alignment,
    whole: Option<u64>,
    entry: Option<ArrayEntry>,
    listed: &Listed,
) -> Result<(), Memory>
    ensures noted { OnOk result (faults.new ≡ faults.old ++ aligned_faults to whole entry listed.now.name listed.now.at) }
{
    match entry {
        None => faults.note_if(true, listed.at, SourceCause::Unknown(listed.name)),
        Some(entry) => {
            if entry.aligned.is_some() {
                faults.note_if(true, listed.at, SourceCause::Twice(listed.name))
            } else {
                let is_outside = outside(to.offset, entry.extent, whole);
                faults.note_if(is_outside, listed.at, SourceCause::AlignOutside)
            }
        }
    }
}

fn align_number(arrays: &mut ArrayEntries, to: Alignment, number: Option<u32>)
    ensures { arrays.new ≡ arrays_aligned to arrays.old number }
{
    if let Some(number) = number {
        if let Some(entry) = arrays.get(number as usize).copied() {
            if entry.aligned.is_none() {
                let aligned = ArrayEntry {
                    name: entry.name,
                    extent: entry.extent,
                    aligned: Some(to),
                };
                arrays.set(number as usize, aligned);
            }
        }
    }
}

fn align_array(
    scope: &mut Scope,
    faults: &mut Faults,
    to: Alignment,
    listed: &Listed,
) -> Result<(), Memory>
    ensures scope { OnOk result (scope.new ≡ after_aligned to scope.old listed.now) }
    ensures noted { OnOk result (faults.new ≡ faults.old ++ listed_faults to scope.old listed.now) }
{
    let whole = extent_of_layout(scope.layouts.as_slice(), to.decomposition);
    note_aligned(faults, to, whole, array_of(scope, listed.name), listed)?;
    let number = array_number(scope.names.find(listed.name));
    align_number(&mut scope.arrays, to, number);
    Ok(())
}

fn enter_parameters(
    scope: &mut Scope,
    loops: &LoopNames,
    faults: &mut Faults,
    list: &[Parameter],
) -> Result<(), Memory>
    ensures scope { OnOk result (scope.new ≡ fold after_parameter scope.old list.now) }
    ensures noted { OnOk result (faults.new ≡ faults.old ++ along after_parameter (parameter_faults loops.now) scope.old list.now) }
{
    for item in list {
        enter_parameter(scope, loops, faults, item)?;
    }
    Ok(())
}

fn enter_arrays(
    scope: &mut Scope,
    loops: &LoopNames,
    faults: &mut Faults,
    list: &[SizedName],
) -> Result<(), Memory>
    ensures scope { OnOk result (scope.new ≡ fold after_array scope.old list.now) }
    ensures noted { OnOk result (faults.new ≡ faults.old ++ along after_array (array_faults loops.now) scope.old list.now) }
{
    for item in list {
        enter_array(scope, loops, faults, item)?;
    }
    Ok(())
}

fn enter_layouts(
    scope: &mut Scope,
    loops: &LoopNames,
    faults: &mut Faults,
    list: &[SizedName],
) -> Result<(), Memory>
    ensures scope { OnOk result (scope.new ≡ fold after_layout scope.old list.now) }
    ensures noted { OnOk result (faults.new ≡ faults.old ++ along after_layout (layout_faults loops.now) scope.old list.now) }
{
    for item in list {
        enter_layout(scope, loops, faults, item)?;
    }
    Ok(())
}

fn align_arrays(
    scope: &mut Scope,
    faults: &mut Faults,
    to: Alignment,
    list: &[Listed],
) -> Result<(), Memory>
    ensures scope { OnOk result (scope.new ≡ fold (after_aligned to) scope.old list.now) }
    ensures noted { OnOk result (faults.new ≡ faults.old ++ along (after_aligned to) (listed_faults to) scope.old list.now) }
{
    for item in list {
        align_array(scope, faults, to, item)?;
    }
    Ok(())
}

/// What an ALIGN aligns to.
fn alignment(
    scope: &Scope,
    loops: &LoopNames,
    faults: &mut Faults,
    target: Name,
    target_at: SourcePlace,
    add: &[Term],
) -> Result<Alignment, Memory>
    ensures value { IfOk result (λ a. a ≡ alignment_of scope.now target target_at add.now) }
    ensures noted { OnOk result (faults.new ≡ faults.old ++ (target_faults scope.now target target_at ++ offset_faults scope.now.names
        target_at loops.now (Some (pos 0)) add.now)) }
{
    let decomposition = decomposition_number(scope.names.find(target));
    faults.note_if(
        decomposition.is_none(),
        target_at,
        SourceCause::Unknown(target),
    )?;
    let offset = declared_offset(&scope.names, target_at, loops, faults, add)?;
    Ok(Alignment {
        decomposition,
        offset,
    })
}

fn note_again(
    faults: &mut Faults,
    number: Option<u32>,
    is_listed: bool,
    listed: &Listed,
) -> Result<(), Memory>
    ensures noted { OnOk result (faults.new ≡ faults.old ++ again_faults is_listed number listed.now) }
{
    match number {
        None => faults.note_if(true, listed.at, SourceCause::Unknown(listed.name)),
        Some(_) => faults.note_if(is_listed, listed.at, SourceCause::Twice(listed.name)),
    }
}

fn is_read_number(reads: &Numbers, number: Option<u32>) -> bool
    ensures { result ≡ is_array_read reads.now number }
{
    match number {
        Some(number) => reads.has(u64::from(number)),
        None => false,
    }
}

fn has_output(outputs: &[OutputName], number: u32) -> bool
    ensures { result ≡ list_any (λ (o : OutputName). o.array == number) outputs.now }
{
    outputs.iter().any(|output| output.array == number)
}

fn is_output_number(outputs: &[OutputName], number: Option<u32>) -> bool
    ensures { result ≡ is_output outputs.now number }
{
    match number {
        Some(number) => has_output(outputs, number),
        None => false,
    }
}

fn add_read(reads: &mut Numbers, number: Option<u32>) -> Result<(), Memory>
    ensures { OnOk result (reads.new ≡ reads_with reads.old number) }
{
    if is_read_number(reads, number) {
        return Ok(());
    }
    match number {
        Some(number) => reads.push(i64::from(number)),
        None => Ok(()),
    }
}

fn add_output(outputs: &mut OutputNames, number: Option<u32>, at: SourcePlace) -> Result<(), Memory>
    ensures { OnOk result (outputs.new ≡ outputs_with outputs.old number at) }
{
    if is_output_number(outputs.as_slice(), number) {
        return Ok(());
    }
    match number {
        Some(array) => {
            let output = OutputName { array, at };
            match outputs.push(output) {
                Ok(()) => Ok(()),
                Err(_) => Err(Memory),
            }
        }
        None => Ok(()),
    }
}

fn enter_read(scope: &mut Scope, faults: &mut Faults, listed: &Listed) -> Result<(), Memory>
    ensures scope { OnOk result (scope.new ≡ after_read scope.old listed.now) }
    ensures noted { OnOk result (faults.new ≡ faults.old ++ read_faults scope.old listed.now) }
{
    let number = array_number(scope.names.find(listed.name));
    let is_listed = is_read_number(&scope.reads, number);
    note_again(faults, number, is_listed, listed)?;
    add_read(&mut scope.reads, number)
}

fn enter_output(scope: &mut Scope, faults: &mut Faults, listed: &Listed) -> Result<(), Memory>
    ensures scope { OnOk result (scope.new ≡ after_output scope.old listed.now) }
    ensures noted { OnOk result (faults.new ≡ faults.old ++ output_faults scope.old listed.now) }
{
    let number = array_number(scope.names.find(listed.name));
    let is_listed = is_output_number(scope.outputs.as_slice(), number);
    note_again(faults, number, is_listed, listed)?;
    add_output(&mut scope.outputs, number, listed.at)
}

fn enter_reads(scope: &mut Scope, faults: &mut Faults, list: &[Listed]) -> Result<(), Memory>
    ensures scope { OnOk result (scope.new ≡ fold after_read scope.old list.now) }
    ensures noted { OnOk result (faults.new ≡ faults.old ++ along after_read read_faults scope.old list.now) }
{
    for item in list {
        enter_read(scope, faults, item)?;
    }
    Ok(())
}

fn enter_outputs(scope: &mut Scope, faults: &mut Faults, list: &[Listed]) -> Result<(), Memory>
    ensures scope { OnOk result (scope.new ≡ fold after_output scope.old list.now) }
    ensures noted { OnOk result (faults.new ≡ faults.old ++ along after_output output_faults scope.old list.now) }
{
    for item in list {
        enter_output(scope, faults, item)?;
    }
    Ok(())
}

fn enter_declaration(
    scope: &mut Scope,
    loops: &LoopNames,
    faults: &mut Faults,
    declaration: &Declaration,
) -> Result<(), Memory>
    ensures scope { OnOk result (scope.new ≡ after_declaration scope.old declaration.now) }
    ensures noted { OnOk result (faults.new ≡ faults.old ++ declaration_faults loops.now scope.old declaration.now) }
{
    match declaration {
        Declaration::Parameter(list) => enter_parameters(scope, loops, faults, list.as_slice()),
        Declaration::Integer(list) => enter_arrays(scope, loops, faults, list.as_slice()),
        Declaration::Decomposition(list) => enter_layouts(scope, loops, faults, list.as_slice()),
        Declaration::Align {
            arrays,
            dummy: _,
            target,
            target_at,
            add,
        } => {
            let to = alignment(scope, loops, faults, *target, *target_at, add.as_slice())?;
            align_arrays(scope, faults, to, arrays.as_slice())
        }
        Declaration::Read(list) => enter_reads(scope, faults, list.as_slice()),
        Declaration::Output(list) => enter_outputs(scope, faults, list.as_slice()),
    }
}

/// What the head declares, with its faults.
pub fn enter_all(
    alloc: Global,
    loops: &LoopNames,
    faults: &mut Faults,
    declarations: &[Declaration],
) -> Result<Scope, Memory>
    ensures scope { IfOk result (λ s. s ≡ declared declarations.now) }
    ensures noted { OnOk result (faults.new ≡ faults.old ++ declared_faults loops.now declarations.now) }
{
    let mut scope = Scope::new(alloc);
    for item in declarations {
        enter_declaration(&mut scope, loops, faults, item)?;
    }
    Ok(scope)
}
