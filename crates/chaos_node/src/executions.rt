ghost use Rattle.std.specs.Prelude.{◌≡◌, ◌+◌, ◌<◌, length, Some, IfOk};
ghost use Rattle.std.specs.Option.{option_copied};
ghost use Rattle.bsp_core.specs.Views.{next_of};
ghost use Rattle.bsp_core.specs.declared.phased.Want.TheVariants.{Work};
ghost use Rattle.chaos_entering.specs.declared.activity.Activity.TheVariants as activity;
ghost use Rattle.chaos_node.specs.Changing.{CanBeMade, ChangesRight};
ghost use Rattle.chaos_holdings.specs.Executions.{turn_in};
ghost use Rattle.chaos_holdings.specs.Keeping.{prepared_in};

use crate::change::Change;
use crate::node::Node;
use chaos_entering::{enter_end, enter_scatter};
use chaos_executing::execute;
use chaos_facts::{facts_are_known, facts_of};
use chaos_holdings::{Effect, kept_of, turn_at};
use chaos_sched::Prepared;
use fd_program::LoopTurn;
use fd_words::{Bytes, Memory};
use plan_walk::taken_lists;

impl<'a> Node<'a> {
    /// The turn of the present execution of a FORALL.
    fn turn(&self) -> Option<&LoopTurn>
        ensures { option_copied result ≡ turn_in self.now.state.session.trace self.now.state.at.execution }
    {
        turn_at(self.session.trace.as_slice(), self.at.execution)
    }

    /// How many phases can come behind this one.
    pub(crate) fn left_behind(&self) -> u32
        requires { next_of self.now.face ≡ Work }
        ensures { self.now.face.left ≡ result + 1 }
    {
        self.left - 1
    }

    /// Nothing is left to do: where a node has no inspection or turn to go on with, which doesn't happen.
    pub(crate) fn stop(&self) -> Change
        requires { next_of self.now.face ≡ Work }
        ensures made { CanBeMade self.now result }
    {
        Change {
            effect: Effect::Nothing,
            line: Bytes::new(self.alloc),
            entered: enter_end(self.alloc, self.at.execution),
        }
    }

    /// Ends the phase in which ghosts are gathered: the node's iterations are executed, and what they
    /// contribute is scattered.
    pub(crate) fn end_gather(&self) -> Result<Change, Memory>
        requires work { next_of self.now.face ≡ Work }
        requires at { self.now.state.at.activity ≡ activity.Gathering }
        ensures made { IfOk result (CanBeMade self.now) }
        ensures right { IfOk result (ChangesRight self.now) }
    {
        match kept_of(self.holdings.kept.as_slice(), self.at.site) {
            Some(prepared) => self.gathered(prepared),
            None => Ok(self.stop()),
        }
    }

    /// The ghosts have come for the inspection that is kept of the FORALL.
    fn gathered(&self, prepared: &Prepared) -> Result<Change, Memory>
        requires work { next_of self.now.face ≡ Work }
        requires at { self.now.state.at.activity ≡ activity.Gathering }
        requires kept { prepared_in self.now.state.holdings.kept self.now.state.at.site ≡ Some prepared.now }
        ensures made { IfOk result (CanBeMade self.now) }
        ensures right { IfOk result (ChangesRight self.now) }
    {
        let is_there = (self.at.site as usize) < self.session.checked.sites.len();
        match self.turn() {
            Some(turn) => {
                if is_there {
                    self.executed(prepared, turn)
                } else {
                    Ok(self.stop())
                }
            }
            None => Ok(self.stop()),
        }
    }

    /// The node's iterations are executed.
    fn executed(&self, prepared: &Prepared, turn: &LoopTurn) -> Result<Change, Memory>
        requires work { next_of self.now.face ≡ Work }
        requires at { self.now.state.at.activity ≡ activity.Gathering }
        requires there { self.now.state.at.site < length self.now.state.session.checked.sites }
        requires kept { prepared_in self.now.state.holdings.kept self.now.state.at.site ≡ Some prepared.now }
        requires turn { turn_in self.now.state.session.trace self.now.state.at.execution ≡ Some turn.now }
        ensures made { IfOk result (CanBeMade self.now) }
        ensures right { IfOk result (ChangesRight self.now) }
    {
        facts_are_known();
        let taken = taken_lists(self.alloc, self.me, &self.at.own, self.got.as_slice())?;
        let session = self.session;
        let facts = facts_of(
            self.alloc,
            &session.checked,
            session.nodes,
            session.rule,
            &self.holdings.records,
            self.at.site,
            turn,
        )?;
        let executing = execute(
            self.alloc,
            &facts,
            prepared,
            &self.holdings.parts,
            &self.holdings.tables,
            &taken,
        )?;
        let entered = enter_scatter(
            self.alloc,
            session,
            self.me,
            self.at.execution,
            self.at.site,
            prepared,
            executing,
            self.left_behind(),
        )?;
        Ok(Change {
            effect: Effect::Nothing,
            line: Bytes::new(self.alloc),
            entered,
        })
    }
}
