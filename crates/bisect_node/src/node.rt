ghost use Rattle.std.specs.Prelude.{◌≡◌, ◌-◌, ◌^◌, ◌<◌, ◌≤◌, IfOk, OnOk, OnErr};
ghost use Rattle.bsp_core.specs.Views.{Ascends, nodes_in};
ghost use Rattle.chaos_dist.specs.declared.shape.Shape.TheVariants.{Block};
ghost use Rattle.bisect_node.specs.Ends.{IsPhaseFor, phase_after, after_rank, after_spread, cut_at, told_begun};
ghost use Rattle.bisect_node.specs.Ends.{own_lines, printed, ranked_again};
ghost use Rattle.bisect_node.specs.Plans.{BisectPlan, IsBisectPlan, IsOfJob, bisect_rows, coordinates_of, own_elements};
ghost use Rattle.bisect_node.specs.Printing.{lines_told};
ghost use Rattle.bisect_node.specs.Stages.{phases_of};
ghost use Rattle.bisect_node.specs.States.{BisectState, bisect_holds};

use crate::Job;
use crate::cuts::{counts_of, cuts_of};
use crate::founds::{found_next, power_of, zeros_of};
use crate::phase::phase_with;
use crate::pieces::{Piece, cut_all};
use crate::printing::{elements_of, own_text, rows_of, told_text};
use crate::spread::spread_of;
use crate::stage::{Stage, phases, stage_at};
use crate::work::Work;
use bsp_core::{Phased, TakeFault, Want};
use bsp_desk::{Desk, Phase, no_phase};
use chaos_dist::{Regular, Shape};
use chaos_letter::{Letter, Wanted};
use fd_words::{Bytes, Memory, NumberLists, Numbers};
use sqlite_items::Items;
use std::alloc::Global;
use std::marker::Model;

/// A node of a bisection.
#[derive(Drop)]
pub struct BisectNode {
    alloc: Global,
    job: Job,
    desk: Desk,
    work: Work,
}

impl Model for BisectNode {
    ghost use Rattle.std.specs.Prelude.{◌≡◌};
    ghost use Rattle.bsp_core.specs.Views.{View};
    ghost use Rattle.bisect_node.specs.States.{BisectState};

    ghost Value = { View BisectState };

    ghost view = { λ s. record { face = s.desk; state = record { job = s.job; work = s.work } } };

    ghost invariant = { λ s. s.desk.count ≡ s.job.nodes };
}

/// The blocks of a job.
pub fn blocks(job: Job) -> Regular
    ensures shape { result.shape ≡ Block }
    ensures extent { result.extent ≡ job.count }
    ensures nodes { result.nodes ≡ job.nodes }
{
    Regular {
        extent: job.count,
        nodes: job.nodes,
        shape: Shape::Block,
    }
}

/// What a node tells as a level begins, or at the end its elements' parts.
fn told_of(
    alloc: Global,
    job: Job,
    phase: u32,
    me: u32,
    pieces: &[Piece],
) -> Result<Numbers, Memory>
    requires { me < job.nodes }
    ensures { IfOk result (λ told. told ≡ told_begun job phase me pieces.now) }
{
    match stage_at(job.parts, phase) {
        Stage::Print => rows_of(alloc, blocks(job), me, pieces),
        Stage::Spread => spread_of(alloc, pieces),
        Stage::Rank(_) => spread_of(alloc, pieces),
    }
}

impl BisectNode {
    /// The node of a number, with the coordinates of its block of elements, one list for each axis.
    pub fn start(alloc: Global, job: &Job, id: u32, own: NumberLists) -> Result<BisectNode, Memory>
        requires { id < job.now.nodes }
        ensures { IfOk result (λ s. (plan : BisectPlan) → IsBisectPlan plan → IsOfJob job.now plan →
            own ≡ coordinates_of plan.axes (own_elements plan id) →
            (s.face ≡ bisect_rows plan 0 id) × bisect_holds plan 0 id s.state) }
    {
        let job = *job;
        let whole = Piece {
            first: 0,
            parts: job.parts,
            size: job.count,
            elements: elements_of(alloc, blocks(job), id)?,
            coordinates: own,
        };
        let mut pieces = Items::new(alloc);
        pieces.push(whole)?;
        let told = told_of(alloc, job, 0, id, pieces.as_slice())?;
        let phase = phase_with(alloc, job, 0, phases(job.parts), id, &told)?;
        Ok(BisectNode {
            alloc,
            job,
            desk: Desk::new(id, job.nodes, phase),
            work: Work {
                pieces,
                cuts: Items::new(alloc),
                found: Items::new(alloc),
                told,
                text: Bytes::new(alloc),
            },
        })
    }

    /// What the node has written: on node 0 the part of each element on a line, once it is done.
    pub fn text(&self) -> &Bytes
        ensures { result.now ≡ self.now.state.work.text }
    {
        &self.work.text
    }

    /// The phase that the node is in, from 0.
    fn phase(&self) -> u32
        ensures is { result ≡ phases_of self.now.state.job.parts - self.now.face.left }
        ensures few { result ≤ 511 }
    {
        phases(self.job.parts).saturating_sub(self.desk.left())
    }

    /// The begin of the next phase, in which the node tells these numbers.
    fn next_phase(&self, told: &Numbers) -> Result<Phase, Memory>
        ensures begun { IfOk result (λ f. IsPhaseFor self.now.state.job (phase_after self.now.state.job self.now.face)
            (self.now.face.left - 1) self.now.face.me told.now f) }
        ensures small { IfOk result (λ f. f.left < 2 ^ 31) }
        ensures out_up { IfOk result (λ f. Ascends self.now.face.me self.now.face.count 0 (nodes_in f.out.items)) }
        ensures due_up { IfOk result (λ f. Ascends self.now.face.me self.now.face.count 0 (nodes_in f.due.items)) }
    {
        let left = self.desk.left().saturating_sub(1);
        let next = self.phase() + 1;
        let phase = phase_with(self.alloc, self.job, next, left, self.desk.me(), told)?;
        Ok(phase)
    }

    /// The end of a Spread: all know the axis of each cut, and begin to look for its key.
    fn end_spread(&mut self) -> Result<(), Memory>
        ensures ok { OnOk result (self.new ≡ after_spread self.old) }
        ensures err { OnErr result (self.new ≡ self.old) }
    {
        let pieces = self.work.pieces.as_slice();
        let axes = self.job.axes;
        let cuts = cuts_of(self.alloc, axes, &self.work.told, self.desk.got(), pieces)?;
        let found = zeros_of(self.alloc, cuts.as_slice())?;
        let told = counts_of(self.alloc, power_of(0), cuts.as_slice(), found.as_slice())?;
        let phase = self.next_phase(&told)?;
        self.work.cuts = cuts;
        self.work.found = found;
        self.work.told = told;
        self.desk.put(phase);
        Ok(())
    }

    /// The end of a Rank: one bit more of each key is known.
    fn end_rank(&mut self, bits: u32) -> Result<(), Memory>
        ensures ok { OnOk result (self.new ≡ after_rank bits self.old) }
        ensures err { OnErr result (self.new ≡ self.old) }
    {
        let cuts = self.work.cuts.as_slice();
        let found = self.work.found.as_slice();
        let power = power_of(bits);
        let found = found_next(
            self.alloc,
            power,
            &self.work.told,
            self.desk.got(),
            cuts,
            found,
        )?;
        if bits < 83 {
            self.rank_again(bits, found)
        } else {
            self.cut(found)
        }
    }

    /// Goes on to the next bit.
    fn rank_again(&mut self, bits: u32, found: Items<u128>) -> Result<(), Memory>
        requires { bits < 83 }
        ensures ok { OnOk result (self.new ≡ ranked_again bits found self.old) }
        ensures err { OnErr result (self.new ≡ self.old) }
    {
        let cuts = self.work.cuts.as_slice();
        let told = counts_of(self.alloc, power_of(bits + 1), cuts, found.as_slice())?;
        let phase = self.next_phase(&told)?;
        self.work.found = found;
        self.work.told = told;
        self.desk.put(phase);
        Ok(())
    }

    /// Cuts the regions at the keys found, and begins the next level or, behind the last, tells the parts.
    fn cut(&mut self, found: Items<u128>) -> Result<(), Memory>
        ensures ok { OnOk result (self.new ≡ cut_at found self.old) }
        ensures err { OnErr result (self.new ≡ self.old) }
    {
        let halves = cut_all(
            self.alloc,
            self.work.pieces.as_slice(),
            &self.work.cuts,
            found.as_slice(),
        )?;
        let me = self.desk.me();
        let told = told_of(
            self.alloc,
            self.job,
            self.phase() + 1,
            me,
            halves.as_slice(),
        )?;
        let phase = self.next_phase(&told)?;
        self.work.pieces = halves;
        self.work.cuts = Items::new(self.alloc);
        self.work.found = Items::new(self.alloc);
        self.work.told = told;
        self.desk.put(phase);
        Ok(())
    }

    /// On node 0 the lines of the parts of its own elements, else none.
    fn own_lines(&self) -> Result<Bytes, Memory>
        ensures { IfOk result (λ text. text ≡ own_lines self.now) }
    {
        if self.desk.me() == 0 {
            own_text(self.alloc, &self.work.told)
        } else {
            Ok(Bytes::new(self.alloc))
        }
    }

    /// The lines of the parts that it was told.
    fn told_lines(&self) -> Result<Bytes, Memory>
        ensures { IfOk result (λ text. text ≡ lines_told self.now.face.got) }
    {
        told_text(self.alloc, self.desk.got())
    }

    /// The end: node 0 has written two texts, one behind the other.
    fn end_print(&mut self, first: Bytes, second: Bytes) -> Result<(), Memory>
        ensures ok { OnOk result (self.new ≡ printed first second self.old) }
        ensures err { OnErr result (self.new ≡ self.old) }
    {
        if self.desk.me() == 0 {
            let mut text = first;
            text.append(second.as_slice())?;
            self.work.text = text;
        }
        self.desk.put(no_phase(self.alloc));
        Ok(())
    }
}

impl Phased for BisectNode {
    ghost use Rattle.bisect_node.specs.RowLaws.{rows_meet_rounds};
    ghost use Rattle.bsp_desk.specs.Uniform.{uniform_fall};
    ghost use Rattle.bisect_node.specs.Plans.{round_at};

    ghost State = { BisectState };

    ghost Plan = { BisectPlan };

    ghost IsPlan = { IsBisectPlan };

    ghost count = { λ plan. plan.nodes };

    ghost rows = { bisect_rows };

    ghost holds = { bisect_holds };

    ghost view = { λ s. s };

    fn next(&self) -> Want {
        self.desk.next()
    }

    fn wanted(&self) -> Wanted {
        self.desk.wanted()
    }

    fn post(&mut self) -> Letter {
        self.desk.post()
    }

    fn take(&mut self, letter: Letter) -> Result<(), TakeFault> {
        self.desk.take(letter)
    }

    fn work(&mut self) -> Result<(), Memory> {
        match stage_at(self.job.parts, self.phase()) {
            Stage::Spread => self.end_spread(),
            Stage::Rank(bits) => self.end_rank(bits),
            Stage::Print => {
                let own = self.own_lines()?;
                let told = self.told_lines()?;
                self.end_print(own, told)
            }
        }
    }

    ghost rows_meet = { λ plan h t. rows_meet_rounds plan h t };

    ghost few = { λ plan h. (h.some_nodes, h.few_nodes) };

    ghost rows_fall = { λ plan h t. uniform_fall plan.nodes (phases_of plan.parts) (round_at plan) t };
}
