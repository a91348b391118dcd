ghost use Rattle.std.specs.Prelude.{◌≡◌, ◌<◌, length, List, true, is_some, Some, None, IfOk};
ghost use Rattle.bsp_core.specs.Views.{next_of};
ghost use Rattle.bsp_core.specs.declared.phased.Want.TheVariants.{Work};
ghost use Rattle.chaos_entering.specs.declared.activity.Activity.TheVariants as activity;
ghost use Rattle.chaos_inspect.specs.Inspecting.{offence_in, phase_of};
ghost use Rattle.chaos_inspect.specs.declared.inspection.Inspection.{Inspection as AnInspection};
ghost use Rattle.chaos_hash.specs.Stamps.{Stamps};
ghost use Rattle.inspect_uses.specs.Accepted.{IsAccepted};
ghost use Rattle.plan_run.specs.Held.{text_on};
ghost use Rattle.fd_program.specs.Texts.{refusal_line as the_refusal_line};
ghost use Rattle.chaos_node.specs.Changing.{CanBeMade, ChangesRight};
ghost use Rattle.chaos_node.specs.Inspections.{EndsPhase};

use crate::change::Change;
use crate::node::Node;
use chaos_entering::{enter_gather, enter_inspection, enter_output};
use chaos_facts::{copy_facts, facts_are_known};
use chaos_holdings::Effect;
use chaos_inspect::Inspection;
use chaos_records::records_are_exact;
use fd_program::Refused;
use fd_report::refusal_line;
use fd_words::{Bytes, Memory, Offence};
use node_tables::TableSet;
use plan_run::{Kept, others_stay_prepared};
use plan_walk::taken_lists;

impl<'a> Node<'a> {
    /// Ends a phase of an inspection: the next one follows, or the FORALL is refused or executed.
    pub(crate) fn end_inspection(&self, inspection: &Inspection) -> Result<Change, Memory>
        requires work { next_of self.now.face ≡ Work }
        requires at { self.now.state.at.activity ≡ activity.Inspecting inspection.now }
        ensures made { IfOk result (CanBeMade self.now) }
        ensures right { IfOk result (ChangesRight self.now) }
    {
        facts_are_known();
        if self.holdings.tables.len() != inspection.facts.layouts.len() {
            return Ok(self.stop());
        }
        let taken = taken_lists(self.alloc, self.me, &self.at.own, self.got.as_slice())?;
        let facts = copy_facts(self.alloc, &inspection.facts)?;
        let mut inspection = inspection.copy(self.alloc, facts)?;
        let mut tables = self.holdings.tables.copy(self.alloc)?;
        inspection.incoming(self.alloc, &taken, &mut tables)?;
        match inspection.offence() {
            Some(offence) => self.refuse(offence),
            None => self.go_on_inspecting(inspection, tables),
        }
    }

    fn go_on_inspecting(&self, inspection: Inspection, tables: TableSet) -> Result<Change, Memory>
        requires work { next_of self.now.face ≡ Work }
        requires accepted { IsAccepted inspection.facts }
        requires passes { offence_in inspection.stage ≡ None }
        requires ends { EndsPhase self.now inspection tables }
        ensures made { IfOk result (CanBeMade self.now) }
        ensures right { IfOk result (ChangesRight self.now) }
    {
        match inspection.phase() {
            Some(_) => self.next_phase(inspection, tables),
            None => self.inspected_whole(inspection, tables),
        }
    }

    fn next_phase(&self, inspection: Inspection, tables: TableSet) -> Result<Change, Memory>
        requires work { next_of self.now.face ≡ Work }
        requires accepted { IsAccepted inspection.facts }
        requires passes { offence_in inspection.stage ≡ None }
        requires goes_on { is_some (phase_of inspection.stage) ≡ true }
        requires ends { EndsPhase self.now inspection tables }
        ensures made { IfOk result (CanBeMade self.now) }
        ensures right { IfOk result (ChangesRight self.now) }
    {
        others_stay_prepared();
        let entered = enter_inspection(
            self.alloc,
            self.session,
            self.me,
            self.at.execution,
            self.at.site,
            inspection,
            &self.holdings.parts,
            &self.holdings.pages,
            self.at.sizes.as_slice(),
            self.left - 1,
        )?;
        Ok(Change {
            effect: Effect::Inspects { tables, kept: None },
            line: Bytes::new(self.alloc),
            entered,
        })
    }

    /// The end of an inspection: it is kept, with the record of this execution.
    fn inspected_whole(&self, inspection: Inspection, tables: TableSet) -> Result<Change, Memory>
        requires work { next_of self.now.face ≡ Work }
        requires accepted { IsAccepted inspection.facts }
        requires passes { offence_in inspection.stage ≡ None }
        requires over { phase_of inspection.stage ≡ None }
        requires ends { EndsPhase self.now inspection tables }
        ensures made { IfOk result (CanBeMade self.now) }
        ensures right { IfOk result (ChangesRight self.now) }
    {
        others_stay_prepared();
        records_are_exact();
        facts_are_known();
        if self.session.checked.sites.len() <= self.at.site as usize {
            return Ok(self.stop());
        }
        let latest = self.holdings.records.record_of(
            self.alloc,
            &self.session.checked,
            self.at.site,
            &inspection.facts.turn,
        )?;
        let prepared = inspection.finish();
        let entered = enter_gather(
            self.alloc,
            self.session,
            self.me,
            self.at.execution,
            self.at.site,
            &prepared,
            &self.holdings.parts,
            self.left - 1,
        )?;
        Ok(Change {
            effect: Effect::Inspects {
                tables,
                kept: Some(Kept {
                    latest,
                    prepared: Some(prepared),
                }),
            },
            line: Bytes::new(self.alloc),
            entered,
        })
    }

    /// A FORALL is refused: node 0 writes the line of that, and OUTPUT follows.
    fn refuse(&self, offence: Offence) -> Result<Change, Memory>
        requires work { next_of self.now.face ≡ Work }
        requires told { (i : AnInspection) × (tables : List Stamps) × (offence_in i.stage ≡ Some offence) × EndsPhase self.now i tables }
        ensures made { IfOk result (CanBeMade self.now) }
        ensures right { IfOk result (ChangesRight self.now) }
    {
        let refused = Refused {
            site: self.at.site,
            offence,
        };
        let line = self.line_of_refusal(&refused)?;
        let entered = enter_output(
            self.alloc,
            self.session,
            self.me,
            0,
            &self.holdings.elements,
            &self.holdings.parts,
            self.outputs_left(),
        )?;
        Ok(Change {
            effect: Effect::Refuses { refused },
            line,
            entered,
        })
    }

    /// The line of a refusal on node 0, and none on the others.
    fn line_of_refusal(&self, refused: &Refused) -> Result<Bytes, Memory>
        ensures { IfOk result (λ line. line ≡ text_on self.now.face.me (the_refusal_line self.now.state.session.checked refused.now)) }
    {
        if self.me == 0 {
            refusal_line(self.alloc, &self.session.checked, refused)
        } else {
            Ok(Bytes::new(self.alloc))
        }
    }

    /// How many phases are left where a FORALL is refused: those of OUTPUT.
    fn outputs_left(&self) -> u32
        requires work { next_of self.now.face ≡ Work }
        ensures falls { result < self.now.face.left }
        ensures is { length self.now.state.session.checked.outputs < self.now.face.left
            → result ≡ length self.now.state.session.checked.outputs }
    {
        let outputs = self.session.checked.outputs.len();
        if outputs < self.left as usize {
            outputs as u32
        } else {
            self.left - 1
        }
    }
}
