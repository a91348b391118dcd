ghost use Rattle.std.specs.Prelude.{◌≡◌, replicate, slice_set, IfOk};
ghost use Rattle.std.specs.Option.{option_copied, option_map};
ghost use Rattle.std.specs.List.{list_any};
ghost use Rattle.fd_program.specs.Trace.{site_at};
ghost use Rattle.plan_run.specs.TableLaws.{is_named_in, without_inspection};
ghost use Rattle.chaos_holdings.specs.Keeping.{names_decomposition, no_kept, prepared_by, prepared_in, with_given_up};

use chaos_sched::Prepared;
use fd_program::{ArrayFacts, Checked, Reference, decomposition};
use fd_words::Memory;
use plan_run::Kept;
use std::alloc::Global;
use std::marker::Model;

/// For each FORALL, by number from 0, what is kept of it; seen as the list of that.
#[derive(Drop)]
pub struct KeptList {
    items: Vec<Option<Kept>>,
}

impl Model for KeptList {
    ghost use Rattle.std.specs.Prelude.{List, Option};
    ghost use Rattle.plan_run.specs.declared.kept.Kept.{Kept as AKept};

    ghost Value = { List (Option AKept) };

    ghost view = { λ s. s.items.items };
}

/// The inspection that is kept of a FORALL, if there is one.
pub fn kept_of(kept: &[Option<Kept>], site: u32) -> Option<&Prepared>
    ensures { option_copied result ≡ prepared_in kept.now site }
{
    match kept.get(site as usize) {
        Some(kept) => prepared_of(kept),
        None => None,
    }
}

fn prepared_of(kept: &Option<Kept>) -> Option<&Prepared>
    ensures { option_copied result ≡ prepared_by kept.now }
{
    match kept {
        Some(kept) => kept.prepared.as_ref(),
        None => None,
    }
}

/// Whether one of the references has its array in a decomposition.
fn names(arrays: &[ArrayFacts], references: &[Reference], named: u32) -> bool
    ensures { result ≡ list_any (names_decomposition arrays.now named) references.now }
{
    references
        .iter()
        .any(|r| named == decomposition(arrays, r.array))
}

/// Whether a FORALL has references whose arrays are declared in a decomposition.
fn names_at(checked: &Checked, site: usize, named: u32) -> bool
    ensures { result ≡ list_any (names_decomposition checked.now.arrays named) (site_at checked.now.sites site).references }
{
    match checked.sites.get(site) {
        Some(site) => names(checked.arrays.as_slice(), site.references.as_slice(), named),
        None => false,
    }
}

/// Whether a FORALL has references in a decomposition of the program.
fn is_named(checked: &Checked, site: usize, named: u32) -> bool
    ensures { result ≡ is_named_in checked.now site named }
{
    if (named as usize) < checked.layouts.len() {
        names_at(checked, site, named)
    } else {
        false
    }
}

impl KeptList {
    /// Nothing is kept of so many FORALLs.
    pub fn new(alloc: Global, sites: usize) -> Result<KeptList, Memory>
        ensures { IfOk result (λ kept. kept ≡ replicate sites no_kept) }
    {
        let mut items = Vec::new(alloc);
        for _site in 0..sites {
            items.push(None)?;
        }
        Ok(KeptList { items })
    }

    /// What is kept, by number.
    pub fn as_slice(&self) -> &[Option<Kept>]
        ensures { result.now ≡ self.now }
    {
        self.items.as_slice()
    }

    /// Puts what is kept of a FORALL in place; nothing from the end on.
    pub fn put(&mut self, site: u32, kept: Option<Kept>)
        ensures { self.new ≡ slice_set self.old site kept }
    {
        put_in(self.items.as_mut_slice(), site, kept);
    }

    /// Gives up the inspections of all FORALLs that have references in a decomposition; their records stay.
    pub fn give_up(&mut self, checked: &Checked, decomposition: u32)
        ensures { self.new ≡ with_given_up checked.now decomposition self.old }
    {
        give_up_in(self.items.as_mut_slice(), checked, decomposition);
    }
}

/// Puts what is kept of a FORALL in place; nothing from the end on.
fn put_in(items: &mut [Option<Kept>], site: u32, kept: Option<Kept>)
    ensures { items.new ≡ slice_set items.old site kept }
{
    if (site as usize) < items.len() {
        items[site as usize] = kept;
    }
}

/// Gives up the inspections of all FORALLs with references in a decomposition.
fn give_up_in(items: &mut [Option<Kept>], checked: &Checked, decomposition: u32)
    ensures { items.new ≡ with_given_up checked.now decomposition items.old }
{
    for site in 0..items.len() {
        if is_named(checked, site, decomposition) {
            give_up_one(&mut items[site]);
        }
    }
}

/// Gives up an inspection; the record stays.
fn give_up_one(kept: &mut Option<Kept>)
    ensures { kept.new ≡ option_map without_inspection kept.old }
{
    *kept = without(kept.take());
}

/// What is kept, without its inspection.
fn without(kept: Option<Kept>) -> Option<Kept>
    ensures { result ≡ option_map without_inspection kept }
{
    match kept {
        Some(kept) => {
            let Kept {
                latest,
                prepared: _,
            } = kept;
            Some(Kept {
                latest,
                prepared: None,
            })
        }
        None => None,
    }
}
