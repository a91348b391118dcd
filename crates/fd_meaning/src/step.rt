ghost use Rattle.std.specs.Prelude.{◌≡◌, ◌++◌, ◌≤◌, length, OnOk, IfOk, All, MatchOption};
ghost use Rattle.fd_program.specs.Loops.{after_loop, offence_of};
ghost use Rattle.fd_program.specs.Runs.{after_step, refusal_of};
ghost use Rattle.fd_program.specs.Stores.{array_at};
ghost use Rattle.fd_program.specs.Texts.{line_for, printed};
ghost use Rattle.fd_program.specs.Trace.{site_at};
ghost use Rattle.fd_program.specs.declared.site.Site.{Site as ASite};

use crate::loops::{changes_in, make_all};
use crate::offences::offence;
use crate::range::iterations;
use fd_data::line_of;
use fd_program::{Checked, LoopTurn, Refused, Site, Step, Store};
use fd_words::{Bytes, Memory, Name, Numbers, Offence};
use std::alloc::Global;

/// One execution of a FORALL whose range isn't empty: it is refused, or done.
fn run_loop(
    alloc: Global,
    checked: &Checked,
    site: &Site,
    turn: &LoopTurn,
    store: &mut Store,
) -> Result<Option<Offence>, Memory>
    requires { length site.now.references ≤ 64 }
    ensures offence { IfOk result (λ o. o ≡ offence_of checked.now.arrays site.now turn.now store.old) }
    ensures store { IfOk result (λ o. MatchOption o (store.new ≡ after_loop checked.now.arrays site.now turn.now store.old)
        (λ _. store.new ≡ store.old)) }
{
    let arrays = checked.arrays.as_slice();
    let all = iterations(alloc, turn.low, turn.high)?;
    match offence(alloc, arrays, site, turn, store, all.as_slice())? {
        Some(offence) => Ok(Some(offence)),
        None => {
            let changes = changes_in(alloc, arrays, site, turn, store, all.as_slice())?;
            make_all(store, changes.as_slice());
            Ok(None)
        }
    }
}

/// One execution of a FORALL by its number.
fn run_forall(
    alloc: Global,
    checked: &Checked,
    site: u32,
    turn: &LoopTurn,
    store: &mut Store,
) -> Result<Option<Offence>, Memory>
    requires { All (λ (s : ASite). length s.references ≤ 64) checked.now.sites }
    ensures offence { IfOk result (λ o. o ≡ offence_of checked.now.arrays (site_at checked.now.sites site) turn.now store.old) }
    ensures store { IfOk result (λ o. MatchOption o (store.new ≡ after_loop checked.now.arrays (site_at checked.now.sites site) turn.now
        store.old) (λ _. store.new ≡ store.old)) }
{
    match checked.sites.get(site as usize) {
        Some(found) => run_loop(alloc, checked, found, turn, store),
        None => Ok(None),
    }
}

fn array_name(checked: &Checked, array: u32) -> Name
    ensures { result ≡ (array_at checked.now.arrays array).name }
{
    match checked.arrays.get(array as usize) {
        Some(facts) => facts.name,
        None => Name::new(),
    }
}

/// Appends the line of the array with this number.
pub fn append_array(
    alloc: Global,
    text: &mut Bytes,
    checked: &Checked,
    store: &Store,
    array: u32,
) -> Result<(), Memory>
    ensures { OnOk result (text.new ≡ text.old ++ line_for checked.now store.now array) }
{
    let name = array_name(checked, array);
    let line = match store.get(u64::from(array)) {
        Some(list) => line_of(alloc, &name, list)?,
        None => line_of(alloc, &name, &Numbers::new(alloc))?,
    };
    text.append(line.as_slice())
}

/// One step: it is refused, or done.
pub fn run_step(
    alloc: Global,
    checked: &Checked,
    step: &Step,
    store: &mut Store,
    text: &mut Bytes,
) -> Result<Option<Refused>, Memory>
    requires { All (λ (s : ASite). length s.references ≤ 64) checked.now.sites }
    ensures refused { IfOk result (λ r. r ≡ refusal_of checked.now step.now store.old) }
    ensures text { OnOk result (text.new ≡ text.old ++ printed checked.now (step.now, store.old)) }
    ensures store { IfOk result (λ r. MatchOption r (store.new ≡ after_step checked.now step.now store.old) (λ _. store.new ≡ store.old)) }
{
    match step {
        Step::Distribute {
            decomposition: _,
            form: _,
        } => Ok(None),
        Step::Print { array } => {
            append_array(alloc, text, checked, store, *array)?;
            Ok(None)
        }
        Step::Forall { site, turn } => {
            if turn.high < turn.low {
                return Ok(None);
            }
            match run_forall(alloc, checked, *site, turn, store)? {
                Some(offence) => Ok(Some(Refused {
                    site: *site,
                    offence,
                })),
                None => Ok(None),
            }
        }
    }
}
