ghost use Rattle.std.specs.Prelude.{◌≡◌, ◌<◌, false, is_some, IfOk};
ghost use Rattle.bsp_core.specs.Views.{next_of};
ghost use Rattle.bsp_core.specs.declared.phased.Want.TheVariants.{Work};
ghost use Rattle.chaos_node.specs.Changing.{CanBeMade, ChangesRight, executing_in};

use crate::change::Change;
use crate::node::Node;
use bsp_core::{Phased, TakeFault, Want};
use chaos_entering::Activity;
use chaos_letter::{Letter, Wanted};
use fd_words::Memory;

impl<'a> Node<'a> {
    /// All that the end of the present phase changes.
    fn change(&self) -> Result<Change, Memory>
        requires work { next_of self.now.face ≡ Work }
        requires at { is_some (executing_in self.now.state.at.activity) ≡ false }
        ensures made { IfOk result (CanBeMade self.now) }
        ensures right { IfOk result (ChangesRight self.now) }
    {
        match &self.at.activity {
            Activity::Printing => self.end_print(),
            Activity::Output(number) => self.end_output(*number),
            Activity::Moving(moving) => self.end_move(moving),
            Activity::Inspecting(inspection) => self.end_inspection(inspection),
            Activity::Gathering => self.end_gather(),
            Activity::Scattering(_) => Ok(self.stop()),
            Activity::Ended => Ok(self.stop()),
        }
    }
}

impl<'a> Phased for Node<'a> {
    ghost use Rattle.chaos_entering.specs.State.{NodeState};
    ghost use Rattle.plan_run.specs.Rows.{IsRunPlan, RunPlan, node_row};
    ghost use Rattle.chaos_entering.specs.Standing.{node_holds};

    ghost State = { NodeState };

    ghost Plan = { RunPlan };

    ghost IsPlan = { IsRunPlan };

    ghost count = { λ plan. plan.nodes };

    ghost rows = { node_row };

    ghost holds = { node_holds };

    ghost view = { λ s. s };

    fn next(&self) -> Want {
        self.next_action()
    }

    fn wanted(&self) -> Wanted {
        self.next_wanted()
    }

    fn post(&mut self) -> Letter {
        self.post_next()
    }

    fn take(&mut self, letter: Letter) -> Result<(), TakeFault> {
        self.take_next(letter)
    }

    fn work(&mut self) -> Result<(), Memory> {
        if !self.is_scattering() {
            let change = self.change()?;
            return self.commit(change);
        }
        let mut parts = self.take_parts();
        let mut undo = self.take_undo();
        match self.end_scatter(&mut parts, &mut undo) {
            Ok(executed) => self.put_executed(executed, parts, undo),
            Err(memory) => {
                self.give_back(parts, undo);
                Err(memory)
            }
        }
    }

    ghost use Rattle.plan_run.specs.RowLaws.{rows_meet, rows_fall};

    ghost rows_meet = { λ plan h t. rows_meet plan h t };

    ghost few = { λ plan h. (h.some, h.few) };

    ghost rows_fall = { λ plan h t. rows_fall plan t };
}
