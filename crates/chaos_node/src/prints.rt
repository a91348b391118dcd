ghost use Rattle.std.specs.Prelude.{◌≡◌, ◌+◌, ◌≤◌, ◌<◌, ◌^◌, ◌++◌, [], pos, length, false, slice_set, Some, IfOk, IfSome};
ghost use Rattle.bsp_core.specs.Views.{next_of};
ghost use Rattle.bsp_core.specs.declared.phased.Want.TheVariants.{Work};
ghost use Rattle.chaos_entering.specs.declared.activity.Activity.TheVariants as activity;
ghost use Rattle.chaos_node.specs.Changing.{CanBeMade, ChangesRight};
ghost use Rattle.chaos_begin.specs.Begins.{IsSoundBetween};
ghost use Rattle.chaos_print.specs.Printing.{print_text};
ghost use Rattle.chaos_node.specs.Ends.{LooksAt, LooksWith};

use crate::change::Change;
use crate::node::Node;
use chaos_begin::Between;
use chaos_entering::{enter_next, enter_output};
use chaos_holdings::Effect;
use chaos_print::{plans_can_print, print_line, texts_go_on};
use chaos_records::Records;
use fd_words::{Bytes, Memory, NumberLists};

/// The number after this one.
fn number_after(number: u32) -> u32
    ensures { number + 1 < 2 ^ 32 → result ≡ number + 1 }
{
    number.saturating_add(1)
}

impl<'a> Node<'a> {
    /// What is looked at as a step begins.
    pub(crate) fn between(&self) -> Between
        ensures is { LooksAt self.now.state self.now.face.me result }
        ensures sound { IsSoundBetween result }
    {
        let holdings = &self.holdings;
        self.between_with(&holdings.elements, &holdings.parts, &holdings.records)
    }

    /// What is looked at where the elements, parts and records are these.
    pub(crate) fn between_with<'b>(
        &'b self,
        elements: &'b NumberLists,
        parts: &'b NumberLists,
        records: &'b Records,
    ) -> Between<'b>
        ensures is { LooksWith self.now.state self.now.face.me elements.now parts.now records.now result }
        ensures sound { IsSoundBetween result }
    {
        Between {
            checked: &self.session.checked,
            nodes: self.session.nodes,
            rule: self.session.rule,
            me: self.me,
            elements,
            parts,
            records,
            kept: self.holdings.kept.as_slice(),
        }
    }

    /// The number of the next step.
    pub(crate) fn next_number(&self) -> u64
        ensures { self.now.state.at.execution < 2 ^ 32 → result ≡ self.now.state.at.execution + 1 }
    {
        self.at.execution.saturating_add(1)
    }

    /// The line of the array that is printed.
    fn line(&self) -> Result<Bytes, Memory>
        ensures { IfOk result (λ text. text ≡ print_text self.now.state.session.checked.arrays self.now.face.me self.now.state.at.site
            self.now.state.at.own self.now.face.got) }
    {
        print_line(
            self.alloc,
            &self.session.checked.arrays,
            self.me,
            self.at.site,
            &self.at.own,
            self.got.as_slice(),
        )
    }

    /// Ends a PRINT: node 0 writes the line, and the next step begins.
    pub(crate) fn end_print(&self) -> Result<Change, Memory>
        requires work { next_of self.now.face ≡ Work }
        requires at { self.now.state.at.activity ≡ activity.Printing }
        ensures made { IfOk result (CanBeMade self.now) }
        ensures right { IfOk result (ChangesRight self.now) }
    {
        plans_can_print();
        texts_go_on();
        let line = self.line()?;
        let entered = enter_next(
            self.alloc,
            self.session,
            &self.between(),
            &self.holdings.pages,
            self.next_number(),
            self.left - 1,
        )?;
        Ok(Change {
            effect: Effect::Nothing,
            line,
            entered,
        })
    }

    /// Ends the array of OUTPUT with this number: node 0 writes the line, and the next array follows.
    pub(crate) fn end_output(&self, number: u32) -> Result<Change, Memory>
        requires work { next_of self.now.face ≡ Work }
        requires at { self.now.state.at.activity ≡ activity.Output number }
        ensures made { IfOk result (CanBeMade self.now) }
        ensures right { IfOk result (ChangesRight self.now) }
    {
        plans_can_print();
        texts_go_on();
        let line = self.line()?;
        let entered = enter_output(
            self.alloc,
            self.session,
            self.me,
            number_after(number),
            &self.holdings.elements,
            &self.holdings.parts,
            self.left - 1,
        )?;
        Ok(Change {
            effect: Effect::Nothing,
            line,
            entered,
        })
    }
}
