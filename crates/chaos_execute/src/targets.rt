ghost use Rattle.std.specs.Prelude.{◌≡◌, ◌++◌, option_to_list, IfOk, OnOk};
ghost use Rattle.chaos_execute.specs.ByArray.{target_in as target_of_seat, targets_from};

use crate::seat::{Seat, find_seat};
use crate::statements::target;
use fd_program::CheckedBody;
use fd_words::Memory;
use std::alloc::Global;

/// A target in an array: its place among the references of an iteration, and the column of its
/// statement.
#[derive(Clone, Copy, Debug, PartialEq, Eq)]
pub struct Target {
    pub at: u64,
    pub column: u64,
}

/// The targets in an array, in the order of the statements.
pub fn targets(
    alloc: Global,
    seats: &[Seat],
    array: u64,
    body: &[CheckedBody],
) -> Result<Vec<Target>, Memory>
    ensures { IfOk result (λ targets. targets.items ≡ targets_from seats.now array 0 body.now) }
{
    let mut targets = Vec::new(alloc);
    let mut column = 0u64;
    for statement in body {
        let one = target_in(find_seat(seats, target(statement)), array, column);
        add(&mut targets, one)?;
        column += 1;
    }
    Ok(targets)
}

fn target_in(seat: Option<Seat>, array: u64, column: u64) -> Option<Target>
    ensures { result ≡ target_of_seat array column seat }
{
    match seat {
        Some(seat) => {
            if u64::from(seat.array) == array {
                Some(Target {
                    at: seat.at,
                    column,
                })
            } else {
                None
            }
        }
        None => None,
    }
}

fn add(targets: &mut Vec<Target>, target: Option<Target>) -> Result<(), Memory>
    ensures { OnOk result (targets.new.items ≡ targets.old.items ++ option_to_list target) }
{
    if let Some(target) = target {
        targets.push(target)?;
    }
    Ok(())
}
