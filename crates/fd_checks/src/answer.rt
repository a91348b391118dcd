ghost use Rattle.std.specs.Prelude.{◌≡◌, ◌++◌, fold, OnOk, IfOk};
ghost use Rattle.fd_scope.specs.Faults.{along};
ghost use Rattle.fd_program.specs.Checks.{IsChecked};
ghost use Rattle.fd_program.specs.Terms.{HaveTerms};
ghost use Rattle.fd_checks.specs.Filled.{AreFilled};
ghost use Rattle.fd_checks.specs.Shapes.{AreShaped};
ghost use Rattle.fd_checks.specs.Walks.{start, step, step_faults, resolved_in, IsAnswer};

use crate::statements::step_over;
use crate::walk::Walk;
use fd_program::Checked;
use fd_scope::{Faults, Head, Scope, Tables, head_facts};
use fd_syntax::{Program, Statement};
use fd_words::{Memory, SourceStop};
use sqlite_items::Items;
use std::alloc::Global;

fn walk_start(alloc: Global, head: &Head) -> Result<Walk, Memory>
    ensures { IfOk result (λ w. w ≡ start head.now) }
{
    let used = vec![in alloc; 0u32; head.tables.layouts.len()]?;
    Ok(Walk {
        outer: Items::new(alloc),
        used: Items::from_vec(used),
        sites: Items::new(alloc),
        statements: Items::new(alloc),
    })
}

fn walk_all(
    alloc: Global,
    head: &Head,
    faults: &mut Faults,
    statements: &[Statement],
) -> Result<Walk, Memory>
    ensures walk { IfOk result (λ w. w ≡ fold (step head.now) (start head.now) statements.now) }
    ensures noted { OnOk result (faults.new ≡ faults.old ++ along (step head.now) (step_faults head.now) (start head.now) statements.now) }
{
    let mut walk = walk_start(alloc, head)?;
    for statement in statements {
        step_over(alloc, head, &mut walk, faults, statement)?;
    }
    Ok(walk)
}

fn checked(head: Head, walk: Walk) -> Checked
    ensures { result ≡ resolved_in head walk }
{
    let Head {
        scope,
        tables,
        loops: _,
    } = head;
    let Scope {
        names: _,
        arrays: _,
        layouts: _,
        reads,
        outputs,
    } = scope;
    let Tables { arrays, layouts } = tables;
    let Walk {
        outer: _,
        used: _,
        sites,
        statements,
    } = walk;
    Checked {
        arrays,
        layouts,
        reads,
        outputs,
        sites,
        statements,
    }
}

fn resolve_all(alloc: Global, program: &Program) -> Result<Checked, SourceStop>
    ensures { IsAnswer program.now result }
{
    let mut faults = Faults::new(alloc);
    let head = match head_facts(alloc, program, &mut faults) {
        Ok(head) => head,
        Err(_) => return Err(SourceStop::Memory),
    };
    let walk = match walk_all(alloc, &head, &mut faults, program.statements.as_slice()) {
        Ok(walk) => walk,
        Err(_) => return Err(SourceStop::Memory),
    };
    match faults.first() {
        None => Ok(checked(head, walk)),
        Some(fault) => Err(SourceStop::Fault(fault)),
    }
}

/// The program with its names resolved, its references and stamps numbered; or its first fault, by
/// place in the text and then by the order of the table of faults. Where no FORALL is empty, as the
/// grammar has it, an accepted program is checked: numbers are in range, stamps differ, and the
/// statements of a loop agree.
pub fn check(alloc: Global, program: &Program) -> Result<Checked, SourceStop>
    ensures answer { IsAnswer program.now result }
    ensures terms { IfOk result (λ c. HaveTerms c.sites) }
    ensures shaped { IfOk result (λ c. AreShaped c.sites) }
    ensures checked { AreFilled program.now → IfOk result IsChecked }
{
    resolve_all(alloc, program)
}
