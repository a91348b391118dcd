ghost use Rattle.std.specs.Prelude.{◌≡◌, None, true, is_some, IfOk};
ghost use Rattle.bsp_core.specs.Views.{next_of};
ghost use Rattle.bsp_core.specs.declared.phased.Want.TheVariants.{Work};
ghost use Rattle.chaos_entering.specs.declared.activity.Activity.TheVariants as activity;
ghost use Rattle.chaos_node.specs.Changing.{CanBeMade, ChangesRight};
ghost use Rattle.chaos_node.specs.Moves.{EndsStage};
ghost use Rattle.chaos_moving.specs.Stages.{stage_in};

use crate::change::Change;
use crate::node::Node;
use chaos_entering::{enter_move, enter_next};
use chaos_facts::facts_are_known;
use chaos_holdings::{Effect, elements_after, pages_after, parts_after, records_of_move};
use chaos_moving::Moving;
use chaos_records::notes_keep_the_past;
use fd_words::{Bytes, Memory};
use plan_walk::taken_lists;
use std::alloc::Global;

impl<'a> Node<'a> {
    /// Ends a stage of a move: the next stage follows, or the next step where all is moved.
    pub(crate) fn end_move(&self, moving: &Moving) -> Result<Change, Memory>
        requires work { next_of self.now.face ≡ Work }
        requires at { self.now.state.at.activity ≡ activity.Moving moving.now }
        ensures made { IfOk result (CanBeMade self.now) }
        ensures right { IfOk result (ChangesRight self.now) }
    {
        match moving.stage() {
            Some(_) => self.end_stage(moving),
            None => Ok(self.stop()),
        }
    }

    /// Takes the lists of a stage.
    fn end_stage(&self, moving: &Moving) -> Result<Change, Memory>
        requires work { next_of self.now.face ≡ Work }
        requires at { self.now.state.at.activity ≡ activity.Moving moving.now }
        requires some { is_some (stage_in moving.now.stage) ≡ true }
        ensures made { IfOk result (CanBeMade self.now) }
        ensures right { IfOk result (ChangesRight self.now) }
    {
        let taken = taken_lists(self.alloc, self.me, &self.at.own, self.got.as_slice())?;
        let mut moving = moving.copy(self.alloc)?;
        moving.incoming(self.alloc, taken)?;
        match moving.stage() {
            Some(_) => self.go_on_moving(moving),
            None => self.moved(moving),
        }
    }

    /// The next stage of a move.
    fn go_on_moving(&self, moving: Moving) -> Result<Change, Memory>
        requires work { next_of self.now.face ≡ Work }
        requires some { is_some (stage_in moving.stage) ≡ true }
        requires ends { EndsStage self.now moving }
        ensures made { IfOk result (CanBeMade self.now) }
        ensures right { IfOk result (ChangesRight self.now) }
    {
        let entered = enter_move(
            self.alloc,
            self.session,
            self.me,
            self.at.execution,
            moving,
            self.at.sizes.as_slice(),
            self.left - 1,
        )?;
        Ok(Change {
            effect: Effect::Nothing,
            line: Bytes::new(self.alloc),
            entered,
        })
    }

    /// The end of a move.
    fn moved(&self, moving: Moving) -> Result<Change, Memory>
        requires work { next_of self.now.face ≡ Work }
        requires none { stage_in moving.stage ≡ None }
        requires ends { EndsStage self.now moving }
        ensures made { IfOk result (CanBeMade self.now) }
        ensures right { IfOk result (ChangesRight self.now) }
    {
        notes_keep_the_past();
        facts_are_known();
        let decomposition = moving.share.decomposition;
        let form = moving.form;
        let moved = moving.finish();
        let arrays = self.session.checked.arrays.as_slice();
        let elements = elements_after(self.alloc, &self.holdings.elements, decomposition, &moved)?;
        let parts = parts_after(
            self.alloc,
            arrays,
            &self.holdings.parts,
            decomposition,
            &moved.pieces,
        )?;
        let records = records_of_move(self.alloc, &self.holdings.records, decomposition, form)?;
        let pages = pages_after(self.alloc, &self.holdings.pages, decomposition, &moved.page)?;
        let between = self.between_with(&elements, &parts, &records);
        let entered = enter_next(
            self.alloc,
            self.session,
            &between,
            &pages,
            self.next_number(),
            self.left - 1,
        )?;
        Ok(Change {
            effect: Effect::Moves {
                decomposition,
                moved,
                parts,
                records,
            },
            line: Bytes::new(self.alloc),
            entered,
        })
    }
}
