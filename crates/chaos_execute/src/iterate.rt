ghost use Rattle.std.specs.Prelude.{◌≡◌, IfOk, OnOk};
ghost use Rattle.chaos_execute.specs.Blocks.{columns_of, joined_block};
ghost use Rattle.chaos_execute.specs.ByArray.{HasArrays};
ghost use Rattle.chaos_execute.specs.Pending.{after_iterations, pending_of};

use crate::PendingValues;
use crate::block::{Block, behind_block};
use crate::by_array::Joined;
use crate::columns::{Sources, column};
use crate::joining::Joining;
use crate::place::count;
use crate::pool::Pool;
use crate::row_lists::join_array_of;
use crate::seat::{Seat, seats, width};
use crate::statements::{expression, operators};
use crate::targets::targets;
use chaos_move::{Operators, operator_of};
use chaos_sched::{LocalRef, Prepared};
use fd_program::{CheckedBody, LoopFacts};
use fd_words::{Memory, NumberLists, Numbers};
use std::alloc::Global;

/// Runs this node's iterations over its pieces and ghosts, which stay as they are: for each target place
/// here or in a ghost its value, or all its values combined. A reference without a place reads 0, and
/// what is written outside the pieces and ghosts is dropped.
pub fn compute(
    alloc: Global,
    facts: &LoopFacts,
    prepared: &Prepared,
    pieces: &NumberLists,
    ghosts: &NumberLists,
) -> Result<PendingValues, Memory>
    ensures { IfOk result (λ pending. pending ≡ pending_of facts.now prepared.now pieces.now ghosts.now) }
{
    let seats = seats(alloc, facts.site.references.as_slice())?;
    let arrays = facts.arrays.len();
    let body = facts.site.body.as_slice();
    let operators = operators(alloc, seats.as_slice(), arrays, body)?;
    let writes = (prepared.iterations.len()).saturating_mul(body.len() as u64);
    let mut joining = Joining::new(alloc, arrays, pieces, ghosts, writes)?;
    let iterations = Iterations {
        operators: &operators,
        pieces,
        ghosts,
        terms: &facts.turn.terms,
        seats: seats.as_slice(),
        width: width(facts.site.references.as_slice()),
        arrays,
        body,
    };
    iterations.run(alloc, prepared, &mut joining)?;
    let ghosts = joining.ghosts.by_slots(alloc, arrays, ghosts)?;
    let here = joining.here.into_numbers(alloc)?;
    Ok(PendingValues {
        operators,
        here,
        ghosts,
    })
}

/// What stays the same from iteration to iteration.
#[derive(Clone, Copy)]
struct Iterations<'a> {
    operators: &'a Operators,
    pieces: &'a NumberLists,
    ghosts: &'a NumberLists,
    terms: &'a Numbers,
    seats: &'a [Seat],
    width: u64,
    arrays: usize,
    body: &'a [CheckedBody],
}

impl Iterations<'_> {
    fn run(&self, alloc: Global, prepared: &Prepared, joining: &mut Joining) -> Result<(), Memory>
        requires { HasArrays self.now.arrays joining.old }
        ensures { OnOk result (joining.new ≡ after_iterations self.now.operators.now self.now.pieces.now self.now.ghosts.now
            self.now.terms.now self.now.seats.now self.now.width self.now.body.now prepared.now.iterations prepared.now.references
            joining.old) }
    {
        let mut pool = Pool::new(alloc);
        let mut rest = prepared.iterations.as_slice();
        let mut row = prepared.references.as_slice();
        while !rest.is_empty() {
            let most = if rest.len() < BLOCK {
                rest.len()
            } else {
                BLOCK
            };
            let (block, more) = rest.split_at(most);
            self.run_block(alloc, block, row, &mut pool, joining)?;
            row = behind_block(row, block, self.width);
            rest = more;
        }
        Ok(())
    }

    /// Runs a block; `row` has the references from its first iteration on.
    fn run_block(
        &self,
        alloc: Global,
        iterations: &[i64],
        row: &[LocalRef],
        pool: &mut Pool,
        joining: &mut Joining,
    ) -> Result<(), Memory>
        requires { HasArrays self.now.arrays joining.old }
        ensures joined { OnOk result (joining.new ≡ after_iterations self.now.operators.now self.now.pieces.now self.now.ghosts.now
            self.now.terms.now self.now.seats.now self.now.width self.now.body.now iterations.now row.now joining.old) }
        ensures arrays { OnOk result (HasArrays self.now.arrays joining.new) }
    {
        let block = Block {
            iterations,
            row,
            width: self.width,
        };
        let columns = self.columns(alloc, &block, pool)?;
        self.join_block(alloc, &columns, &block, joining)?;
        give_back(columns, pool)?;
        Ok(())
    }

    /// A column for each statement.
    fn columns(&self, alloc: Global, block: &Block, pool: &mut Pool) -> Result<NumberLists, Memory>
        ensures { IfOk result (λ columns. columns ≡ columns_of self.now.pieces.now self.now.ghosts.now self.now.terms.now self.now.seats.now
            block.now.width block.now.iterations.now block.now.row.now self.now.body.now) }
    {
        let sources = Sources {
            pieces: self.pieces,
            ghosts: self.ghosts,
            terms: self.terms,
            seats: self.seats,
        };
        let mut columns = NumberLists::new(alloc);
        for statement in self.body {
            let values = column(expression(statement), &sources, block, pool)?;
            columns.push(Numbers::from_vec(values))?;
        }
        Ok(columns)
    }

    /// Joins the values of a block array by array: those of an array in the order of iterations and
    /// statements.
    fn join_block(
        &self,
        alloc: Global,
        columns: &NumberLists,
        block: &Block,
        joining: &mut Joining,
    ) -> Result<(), Memory>
        requires { HasArrays self.now.arrays joining.old }
        ensures joined { OnOk result (joining.new ≡ joined_block self.now.operators.now self.now.pieces.now self.now.ghosts.now
            self.now.seats.now block.now.width self.now.body.now columns.now 0 block.now.iterations.now block.now.row.now joining.old) }
        ensures arrays { OnOk result (HasArrays self.now.arrays joining.new) }
    {
        for number in 0..self.arrays {
            let array = number as u64;
            let targets = targets(alloc, self.seats, array, self.body)?;
            let joined = Joined {
                operator: operator_of(self.operators, array),
                own: count(self.pieces, array),
                slots: count(self.ghosts, array),
                columns,
            };
            join_array_of(
                &mut joining.here,
                &mut joining.ghosts,
                number,
                &joined,
                targets.as_slice(),
                block,
            )?;
        }
        Ok(())
    }
}

/// So many iterations make a block.
const BLOCK: usize = 1024;

fn give_back(columns: NumberLists, pool: &mut Pool) -> Result<(), Memory> {
    let lists = columns.into_vec();
    for list in lists {
        pool.take_back(list.into_vec())?;
    }
    Ok(())
}
