ghost use Rattle.std.specs.Prelude.{◌≡◌, ◌++◌, ◌≤◌, length, flat_map, IfOk, OnOk, All};
ghost use Rattle.fd_program.specs.Runs.{run_from};
ghost use Rattle.fd_program.specs.Texts.{output_line, printed, refusal_text, text_of_run};
ghost use Rattle.fd_program.specs.declared.site.Site.{Site as ASite};

use crate::step::{append_array, run_step};
use fd_program::{Checked, Refused, Step, Store, Trace};
use fd_report::refusal_line;
use fd_words::{Bytes, Memory};
use std::alloc::Global;

/// The text of a run, and why it was refused, if it was.
#[derive(Debug, Drop)]
pub struct PlainEnd {
    pub text: Bytes,
    pub refused: Option<Refused>,
}

/// The refusal, if there is one, and the lines of the OUTPUT arrays.
fn finish(
    alloc: Global,
    checked: &Checked,
    text: Bytes,
    store: &Store,
    refused: Option<Refused>,
) -> Result<PlainEnd, Memory>
    ensures text { IfOk result (λ e. e.text ≡ text ++ refusal_text checked.now refused ++ flat_map (output_line checked.now store.now)
        checked.now.outputs) }
    ensures refused { IfOk result (λ e. e.refused ≡ refused) }
{
    let mut text = text;
    match refused {
        Some(refused) => text.append(refusal_line(alloc, checked, &refused)?.as_slice())?,
        None => {}
    }
    let outputs = checked.outputs.as_slice();
    for output in outputs {
        append_array(alloc, &mut text, checked, store, output.array)?;
    }
    Ok(PlainEnd { text, refused })
}

/// Runs these steps, one after another, until one is refused: the lines of its PRINTs are appended.
#[tactic(auto, using(crate::proofs::Runs::run_steps))]
fn run_all(
    alloc: Global,
    checked: &Checked,
    steps: &[Step],
    store: &mut Store,
    text: &mut Bytes,
) -> Result<Option<Refused>, Memory>
    requires { All (λ (s : ASite). length s.references ≤ 64) checked.now.sites }
    ensures text { OnOk result (text.new ≡ text.old ++ flat_map (printed checked.now) (run_from checked.now steps.now store.old).executed) }
    ensures refused { IfOk result (λ r. r ≡ (run_from checked.now steps.now store.old).refused) }
    ensures store { OnOk result (store.new ≡ (run_from checked.now steps.now store.old).last) }
{
    for step in steps {
        match run_step(alloc, checked, step, store, text)? {
            Some(refused) => return Ok(Some(refused)),
            None => {}
        }
    }
    Ok(None)
}

/// Runs these steps on one machine, from the store before the run: the text, and why it was refused, if
/// it was. With the program's own trace this is the run of the program. A store that lacks an element is
/// read as 0 there, and keeps lacking it.
pub fn run_plain(
    alloc: Global,
    checked: &Checked,
    trace: &Trace,
    store: Store,
) -> Result<PlainEnd, Memory>
    requires { All (λ (s : ASite). length s.references ≤ 64) checked.now.sites }
    ensures text { IfOk result (λ e. e.text ≡ text_of_run checked.now (run_from checked.now trace.now store)) }
    ensures refused { IfOk result (λ e. e.refused ≡ (run_from checked.now trace.now store).refused) }
{
    let mut store = store;
    let mut text = Bytes::new(alloc);
    let refused = run_all(alloc, checked, trace.as_slice(), &mut store, &mut text)?;
    finish(alloc, checked, text, &store, refused)
}
