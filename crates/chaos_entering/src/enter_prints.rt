ghost use Rattle.std.specs.Prelude.{◌≡◌, ℕ, ℤ, ◌+◌, ◌≤◌, ◌<◌, ◌^◌, ◌∷◌, [], List, false, length, IfOk};
ghost use Rattle.fd_program.specs.declared.trace.Step.TheVariants.{Print};
ghost use Rattle.chaos_entering.specs.Coming.{CanStand, EntersStep};
ghost use Rattle.chaos_entering.specs.Entering.{ArePosted, IsRows};
ghost use Rattle.chaos_entering.specs.Enters.{EntersOutput};
ghost use Rattle.chaos_print.specs.Printing.{rows_held};
ghost use Rattle.chaos_entering.specs.declared.activity.Activity.TheVariants.{Ended};

use crate::activity::{Activity, At};
use crate::ahead::Ahead;
use crate::entered::{Entered, Posted, entered_by, post};
use chaos_holdings::Session;
use chaos_print::print_rows;
use fd_words::{Memory, NumberLists, Numbers};
use plan_run::Stage;
use plan_walk::Naming;
use sqlite_items::Items;
use std::alloc::Global;
use std::collections::VecDeque;

/// A list of one list.
fn only(alloc: Global, list: &Numbers) -> Result<NumberLists, Memory>
    ensures { IfOk result (λ lists. lists ≡ list.now ∷ []) }
{
    let mut lists = NumberLists::new(alloc);
    lists.push(list.copy(alloc)?)?;
    Ok(lists)
}

/// The end: no letters, and no phase left.
pub fn enter_end(alloc: Global, execution: u64) -> Entered
    ensures left { result.left ≡ 0 }
    ensures begins { result.begins ≡ false }
    ensures out { result.out.items ≡ [] }
    ensures due { result.due.items ≡ [] }
    ensures got { result.got.items ≡ [] }
    ensures activity { result.at.activity ≡ Ended }
    ensures stands { (me nodes : ℕ) → CanStand me nodes result }
{
    Entered {
        at: At {
            execution,
            site: 0,
            activity: Activity::Ended,
            own: Numbers::new(alloc),
            sizes: Items::new(alloc),
        },
        begins: false,
        left: 0,
        out: VecDeque::new(alloc),
        due: VecDeque::new(alloc),
        got: Vec::new(alloc),
    }
}

/// The rows of a printed array, and the letters with them.
#[derive(Drop)]
struct Rows {
    own: Numbers,
    posted: Posted,
}

/// A phase in which an array is printed: its rows go to node 0.
fn enter_rows(
    alloc: Global,
    session: &Session,
    me: u32,
    naming: Naming,
    elements: &NumberLists,
    parts: &NumberLists,
) -> Result<Rows, Memory>
    ensures own { IfOk result (λ x. x.own ≡ rows_held session.now.checked.arrays elements.now parts.now naming.site) }
    ensures posted { IfOk result (λ x. ArePosted naming me session.now.nodes (x.own ∷ []) [] x.posted) }
{
    let own = print_rows(alloc, &session.checked.arrays, elements, parts, naming.site)?;
    let lists = only(alloc, &own)?;
    let posted = post(alloc, naming, me, session.nodes, &lists, &[])?;
    Ok(Rows { own, posted })
}

/// Such a phase with what the node does in it.
fn printed(alloc: Global, naming: Naming, activity: Activity, left: u32, rows: Rows) -> Entered
    ensures { (me nodes : ℕ) (list : List ℤ) → rows.own ≡ list → ArePosted naming me nodes (rows.own ∷ []) [] rows.posted
        → IsRows naming me nodes activity list left result }
{
    let Rows { own, posted } = rows;
    entered_by(naming, activity, own, Items::new(alloc), left, posted)
}

/// A PRINT.
pub fn enter_print(ahead: &Ahead, array: u32) -> Result<Entered, Memory>
    ensures made { IfOk result (CanStand ahead.now.between.now.me ahead.now.session.now.nodes) }
    ensures falls { IfOk result (λ e. e.left ≤ ahead.now.left) }
    ensures right { IfOk result (EntersStep ahead.now (λ s past step. step ≡ Print array)) }
{
    let naming = Naming {
        stage: Stage::Print,
        execution: ahead.number,
        site: array,
        group: 2,
    };
    let between = ahead.between;
    let rows = enter_rows(
        ahead.alloc,
        ahead.session,
        between.me,
        naming,
        between.elements,
        between.parts,
    )?;
    Ok(printed(ahead.alloc, naming, Activity::Printing, ahead.left, rows))
}

/// The number that the letters of an array of OUTPUT name: they follow those of the steps.
fn output_execution(session: &Session, number: u32) -> u64
    ensures { result ≡ length session.now.trace + number }
{
    session.trace.as_slice().len() as u64 + u64::from(number)
}

/// The array of OUTPUT with this number, and the end behind the last.
pub fn enter_output(
    alloc: Global,
    session: &Session,
    me: u32,
    number: u32,
    elements: &NumberLists,
    parts: &NumberLists,
    left: u32,
) -> Result<Entered, Memory>
    requires left { left < 2 ^ 31 }
    ensures made { IfOk result (CanStand me session.now.nodes) }
    ensures falls { IfOk result (λ e. e.left ≤ left) }
    ensures right { IfOk result (EntersOutput session.now me number elements.now parts.now left) }
{
    let execution = output_execution(session, number);
    match session.checked.outputs.get(number as usize) {
        Some(output) => {
            let naming = Naming {
                stage: Stage::Output(number),
                execution,
                site: output.array,
                group: 2,
            };
            let rows = enter_rows(alloc, session, me, naming, elements, parts)?;
            Ok(printed(alloc, naming, Activity::Output(number), left, rows))
        }
        None => Ok(enter_end(alloc, execution)),
    }
}
