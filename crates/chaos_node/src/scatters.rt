//! The end of an execution: the parts are changed in place, and taken back where memory is wanting.
ghost use Rattle.std.specs.Prelude.{◌≡◌, ℤ, List, [], true, is_some, Some, IfOk, OnOk, OnErr};
ghost use Rattle.std.specs.Option.{option_copied};
ghost use Rattle.bsp_core.specs.Views.{next_of};
ghost use Rattle.bsp_core.specs.declared.phased.Want.TheVariants.{Work};
ghost use Rattle.chaos_entering.specs.Coming.{CanStand, entered_state, face_entered};
ghost use Rattle.chaos_entering.specs.declared.activity.Activity.TheVariants as activity;
ghost use Rattle.chaos_holdings.specs.Keeping.{prepared_in};
ghost use Rattle.chaos_move.specs.Undoing.{taken_back};
ghost use Rattle.chaos_node.specs.Changing.{CanBeMade, ChangesRight, change_with, changed_by, executing_in, with_parts};
ghost use Rattle.chaos_node.specs.Executions.{count_behind};

use crate::change::{Change, Executed};
use crate::node::Node;
use chaos_entering::{Activity, enter_end, enter_next};
use chaos_executing::{Executing, apply_contributions, letters_have_counts};
use chaos_holdings::{Effect, count_at, counted, is_latest, kept_of, records_of_execution};
use chaos_move::Undo;
use chaos_records::notes_keep_the_past;
use chaos_sched::Prepared;
use fd_program::SiteCount;
use fd_words::{Bytes, Memory, NumberLists};
use plan_walk::taken_lists;

impl<'a> Node<'a> {
    /// Whether the phase is the second of an execution.
    pub(crate) fn is_scattering(&self) -> bool
        ensures { result ≡ is_some (executing_in self.now.state.at.activity) }
    {
        match &self.at.activity {
            Activity::Scattering(_) => true,
            _ => false,
        }
    }

    /// What an execution has in hand, where its second phase ends.
    fn executing(&self) -> Option<&Executing>
        ensures { option_copied result ≡ executing_in self.now.state.at.activity }
    {
        match &self.at.activity {
            Activity::Scattering(executing) => Some(executing),
            _ => None,
        }
    }

    /// What the FORALL counts after the present execution, which inspected where it is the last of those.
    fn count_after(&self, prepared: &Prepared) -> Result<SiteCount, Memory>
        ensures { IfOk result (λ count. count ≡ count_behind self.now.state prepared.now) }
    {
        let before = count_at(self.end.counts.as_slice(), self.at.site);
        let inspects = is_latest(self.inspected.as_slice(), self.at.execution);
        counted(&before, prepared, inspects)
    }

    /// Where a node has nothing to go on with, which doesn't happen.
    fn stopped(&self) -> Result<Executed, Memory>
        requires { next_of self.now.face ≡ Work }
        ensures { IfOk result (λ x. (parts : List (List ℤ)) → CanBeMade self.now (change_with parts x)) }
    {
        Ok(Executed {
            records: self.holdings.records.copy(self.alloc)?,
            count: SiteCount::none(),
            entered: enter_end(self.alloc, self.at.execution),
        })
    }

    /// The parts become those after the loop; what else changes.
    fn applied(
        &self,
        prepared: &Prepared,
        executing: &Executing,
        parts: &mut NumberLists,
        undo: &mut Undo,
    ) -> Result<Executed, Memory>
        requires work { next_of self.now.face ≡ Work }
        requires at { self.now.state.at.activity ≡ activity.Scattering executing.now }
        requires kept { prepared_in self.now.state.holdings.kept self.now.state.at.site ≡ Some prepared.now }
        ensures made { IfOk result (λ x. CanBeMade self.now (change_with parts.new x)) }
        ensures right { IfOk result (λ x. ChangesRight (with_parts self.now parts.old) (change_with parts.new x)) }
        ensures back { taken_back undo.new parts.new ≡ taken_back undo.old parts.old }
    {
        letters_have_counts();
        notes_keep_the_past();
        let taken = taken_lists(self.alloc, self.me, &self.at.own, self.got.as_slice())?;
        apply_contributions(prepared, executing, &taken, parts, undo)?;
        let records = records_of_execution(
            self.alloc,
            &self.holdings.records,
            self.session.checked.sites.as_slice(),
            self.at.site,
            self.at.execution,
        )?;
        let count = self.count_after(prepared)?;
        let between = self.between_with(&self.holdings.elements, parts, &records);
        let entered = enter_next(
            self.alloc,
            self.session,
            &between,
            &self.holdings.pages,
            self.next_number(),
            self.left_behind(),
        )?;
        Ok(Executed {
            records,
            count,
            entered,
        })
    }

    /// The contributions have come for the inspection that is kept of the FORALL.
    fn scattered(
        &self,
        executing: &Executing,
        parts: &mut NumberLists,
        undo: &mut Undo,
    ) -> Result<Executed, Memory>
        requires work { next_of self.now.face ≡ Work }
        requires at { self.now.state.at.activity ≡ activity.Scattering executing.now }
        ensures made { IfOk result (λ x. CanBeMade self.now (change_with parts.new x)) }
        ensures right { IfOk result (λ x. ChangesRight (with_parts self.now parts.old) (change_with parts.new x)) }
        ensures back { taken_back undo.new parts.new ≡ taken_back undo.old parts.old }
    {
        match kept_of(self.holdings.kept.as_slice(), self.at.site) {
            Some(prepared) => self.applied(prepared, executing, parts, undo),
            None => self.stopped(),
        }
    }

    /// Ends the phase in which contributions are scattered.
    pub(crate) fn end_scatter(
        &self,
        parts: &mut NumberLists,
        undo: &mut Undo,
    ) -> Result<Executed, Memory>
        requires work { next_of self.now.face ≡ Work }
        requires at { is_some (executing_in self.now.state.at.activity) ≡ true }
        ensures made { IfOk result (λ x. CanBeMade self.now (change_with parts.new x)) }
        ensures right { IfOk result (λ x. ChangesRight (with_parts self.now parts.old) (change_with parts.new x)) }
        ensures back { taken_back undo.new parts.new ≡ taken_back undo.old parts.old }
    {
        match self.executing() {
            Some(executing) => self.scattered(executing, parts, undo),
            None => self.stopped(),
        }
    }

    /// Takes the writes into the parts back, and gives them to the node again.
    pub(crate) fn give_back(&mut self, parts: NumberLists, undo: Undo)
        ensures { self.new ≡ with_parts self.old (taken_back undo parts) }
    {
        let mut parts = parts;
        let mut undo = undo;
        undo.take_back(&mut parts);
        self.holdings.parts = parts;
        self.undo = undo;
    }

    /// Moves the parts out of the node.
    pub(crate) fn take_parts(&mut self) -> NumberLists
        ensures parts { result ≡ self.old.state.holdings.parts }
        ensures rest { self.new ≡ with_parts self.old [] }
    {
        std::mem::replace(&mut self.holdings.parts, NumberLists::new(self.alloc))
    }

    /// Moves the stack of writes out of the node, with none on it.
    pub(crate) fn take_undo(&mut self) -> Undo
        ensures none { result ≡ [] }
        ensures same { self.new ≡ self.old }
    {
        let mut undo = std::mem::replace(&mut self.undo, Undo::new(self.alloc));
        undo.clear();
        undo
    }

    /// Moves it in again.
    fn keep_undo(&mut self, undo: Undo)
        ensures { self.new ≡ self.old }
    {
        self.undo = undo;
    }

    /// A line of nothing.
    fn no_line(&self) -> Bytes
        ensures { result ≡ [] }
    {
        Bytes::new(self.alloc)
    }

    /// Puts what an execution has changed in place; where memory is wanting its writes are taken back.
    pub(crate) fn put_executed(
        &mut self,
        executed: Executed,
        parts: NumberLists,
        undo: Undo,
    ) -> Result<(), Memory>
        requires { CanStand self.old.face.me self.old.face.count executed.entered }
        ensures face { OnOk result (self.new.face ≡ face_entered self.old.face.me self.old.face.count executed.entered) }
        ensures state { OnOk result (self.new.state
            ≡ entered_state (changed_by self.old.state (change_with parts executed)) executed.entered) }
        ensures err { OnErr result (self.new ≡ with_parts self.old (taken_back undo parts)) }
    {
        let line = self.no_line();
        match self.record(
            executed.entered.begins,
            executed.entered.at.execution,
            &line,
        ) {
            Ok(()) => {
                self.put(changes(executed, parts, line));
                self.keep_undo(undo);
                Ok(())
            }
            Err(memory) => {
                discard(executed);
                self.give_back(parts, undo);
                Err(memory)
            }
        }
    }
}

/// All that changes, where the parts have become these.
fn changes(executed: Executed, parts: NumberLists, line: Bytes) -> Change
    ensures { line ≡ [] → result ≡ change_with parts executed }
{
    let Executed {
        records,
        count,
        entered,
    } = executed;
    Change {
        effect: Effect::Executes {
            parts,
            records,
            count,
        },
        line,
        entered,
    }
}

/// Drops what isn't put in place.
fn discard(_executed: Executed) {}
