ghost use Rattle.std.specs.Prelude.{◌≡◌, ◌≤◌, length, IfOk};
ghost use Rattle.fd_program.specs.Loops.{first_of, offences_in};

use crate::uses::uses;
use fd_program::{ArrayFacts, LoopTurn, Site, Store, first_offence};
use fd_words::{Memory, Offence};
use std::alloc::Global;

/// The first offence of these iterations.
#[tactic(auto, using(crate::proofs::Steps::first_steps))]
pub fn offence(
    alloc: Global,
    arrays: &[ArrayFacts],
    site: &Site,
    turn: &LoopTurn,
    store: &Store,
    iterations: &[i64],
) -> Result<Option<Offence>, Memory>
    requires { length site.now.references ≤ 64 }
    ensures { IfOk result (λ o. o ≡ first_of (offences_in arrays.now site.now turn.now store.now iterations.now)) }
{
    for i in iterations {
        let used = uses(alloc, arrays, site, turn, store, *i)?;
        match first_offence(arrays, used.as_slice()) {
            Some(offence) => return Ok(Some(offence)),
            None => {}
        }
    }
    Ok(None)
}
