ghost use Rattle.std.specs.Prelude.{◌≡◌, ◌<◌, ◌≤◌, ◌^◌, ◌≤ℤ◌, pos, nat_lt, if◌then◌else◌, All, IfOk, OnErr, OnOk};
ghost use Rattle.append_node.specs.Node.{AppendState, StartsIn, all_sorted, append_ended, append_holds, last_ended, print_ended, put_in};
ghost use Rattle.append_node.specs.Node.{sizes_ended, text_of, worked};
ghost use Rattle.append_node.specs.Begins.{CanBegin};
ghost use Rattle.chaos_bins.specs.Plan.{flat};

use crate::AppendJob;
use crate::begin::{Begun, Seat, appends_due, begin_print, begin_round};
use crate::dealing::deal_all;
use crate::lines::lines;
use crate::pairs::{Pairs, SortedPairs};
use crate::parts::part;
use bsp_core::{Phased, TakeFault, Want};
use bsp_desk::{Desk, Phase, no_phase};
use chaos_bins::{Stage, deal_first};
use chaos_letter::{Letter, Wanted};
use fd_words::{Bytes, Memory, Numbers};
use std::alloc::Global;
use std::collections::VecDeque;
use std::marker::Model;
use std::mem;

/// A node with its particles. In each round it tells every other node how many particles go there, and then
/// these; at the end all go to node 0.
#[derive(Drop)]
pub struct AppendNode {
    alloc: Global,
    job: AppendJob,
    desk: Desk,
    at: Stage,
    own: Numbers,
    next: VecDeque<(u32, Letter)>,
    text: Bytes,
}

impl Model for AppendNode {
    ghost use Rattle.bsp_core.specs.Views.{View};
    ghost use Rattle.append_node.specs.Node.{AppendState};
    ghost use Rattle.append_node.specs.Kept.{KeptNode};

    ghost Value = { View AppendState };

    ghost view = { λ s. record {
      face = s.desk;
      state = record {
        job = s.job;
        at = s.at;
        own = s.own;
        next = s.next.items;
        text = s.text;
      };
    } };

    ghost invariant = { λ s. KeptNode s };
}

impl AppendNode {
    /// The node of a number, with the first bins and the values of its block of particles.
    pub fn start(
        alloc: Global,
        job: &AppendJob,
        id: u32,
        bins: Numbers,
        values: Numbers,
    ) -> Result<AppendNode, Memory>
        requires node { id < job.now.nodes }
        requires in_bins { All (λ b. (pos 1 ≤ℤ b) × (b ≤ℤ pos job.now.bins)) bins }
        ensures { IfOk result (StartsIn job.now id bins values) }
    {
        let seat = Seat {
            me: id,
            count: job.nodes,
        };
        let lists = deal_first(alloc, job.layout(), bins.as_slice(), values.as_slice())?;
        let left = 2 * (job.steps as u32 + 1) + 1;
        let Begun { phase, own, next } = begin_round(alloc, seat, 0, left, lists)?;
        Ok(AppendNode {
            alloc,
            job: *job,
            desk: Desk::new(id, job.nodes, phase),
            at: Stage::Sizing(0),
            own,
            next,
            text: Bytes::new(alloc),
        })
    }

    /// On node 0 the lines once all is done, else nothing.
    pub fn text(&self) -> &Bytes
        ensures { result.now ≡ self.now.state.text }
    {
        &self.text
    }

    fn seat(&self) -> Seat
        ensures me { result.me ≡ self.now.face.me }
        ensures count { result.count ≡ self.now.face.count }
        ensures less { self.now.face.me < self.now.face.count }
        ensures few { self.now.face.count ≤ 16 }
    {
        Seat {
            me: self.desk.me(),
            count: self.desk.count(),
        }
    }

    /// All pairs that the node has, its own and those that it took, in ascending order.
    fn all_sorted(&self) -> Result<SortedPairs, Memory>
        ensures { IfOk result (λ pairs. pairs ≡ all_sorted self.now) }
    {
        let mut pairs = Pairs::new(self.alloc);
        let own = self.own.as_slice();
        let got = self.desk.got();
        for node in 0..self.desk.count() {
            pairs.add(part(self.desk.me(), own, got, node))?;
        }
        Ok(pairs.sorted())
    }

    /// The same as a flat list.
    fn print_rows(&self) -> Result<Numbers, Memory>
        ensures { IfOk result (λ rows. rows ≡ flat (all_sorted self.now)) }
    {
        let pairs = self.all_sorted()?;
        pairs.numbers(self.alloc)
    }

    /// Puts what a phase begins with.
    fn put(&mut self, seat: Seat, at: Stage, begun: Begun)
        requires me { seat.me ≡ self.old.face.me }
        requires count { seat.count ≡ self.old.face.count }
        requires left { begun.phase.left < 2 ^ 31 }
        requires can { CanBegin seat begun.phase.left begun }
        ensures { self.new ≡ put_in self.old at begun }
    {
        let Begun { phase, own, next } = begun;
        self.at = at;
        self.own = own;
        self.next = next;
        self.desk.put(phase);
    }

    /// How many particles come is told: next they come.
    fn end_sizes(&mut self, round: u64) -> Result<(), Memory>
        requires { 0 < self.old.face.left }
        ensures ok { OnOk result (self.new ≡ sizes_ended self.old round) }
        ensures err { OnErr result (self.new ≡ self.old) }
    {
        let due = appends_due(self.alloc, self.seat(), round, self.desk.got())?;
        let got = Vec::with_capacity(self.alloc, due.len())?;
        let out = mem::replace(&mut self.next, VecDeque::new(self.alloc));
        let left = self.desk.left() - 1;
        self.at = Stage::Appending(round);
        self.desk.put(Phase {
            left,
            out,
            due,
            got,
        });
        Ok(())
    }

    /// The particles of a round have come: they do the next step.
    fn end_append(&mut self, round: u64) -> Result<(), Memory>
        requires some { 0 < self.old.face.left }
        requires more { round < self.old.state.job.steps }
        ensures ok { OnOk result (self.new ≡ append_ended self.old round) }
        ensures err { OnErr result (self.new ≡ self.old) }
    {
        let seat = self.seat();
        let layout = self.job.layout();
        let lists = deal_all(
            self.alloc,
            layout,
            seat.me,
            self.own.as_slice(),
            self.desk.got(),
        )?;
        let left = self.desk.left() - 1;
        let begun = begin_round(self.alloc, seat, round + 1, left, lists)?;
        self.put(seat, Stage::Sizing(round + 1), begun);
        Ok(())
    }

    /// The particles of the last round have come: all go to node 0.
    fn end_last(&mut self) -> Result<(), Memory>
        requires { 0 < self.old.face.left }
        ensures ok { OnOk result (self.new ≡ last_ended self.old) }
        ensures err { OnErr result (self.new ≡ self.old) }
    {
        let rows = self.print_rows()?;
        let left = self.desk.left() - 1;
        let seat = self.seat();
        let begun = begin_print(self.alloc, seat, self.job.steps, left, rows)?;
        self.put(seat, Stage::Printing, begun);
        Ok(())
    }

    /// All particles are on node 0, which writes the lines.
    fn end_print(&mut self) -> Result<(), Memory>
        ensures ok { OnOk result (self.new ≡ print_ended self.old) }
        ensures err { OnErr result (self.new ≡ self.old) }
    {
        let text = self.lines()?;
        self.at = Stage::Ended;
        self.own = Numbers::new(self.alloc);
        self.next = VecDeque::new(self.alloc);
        self.text = text;
        self.desk.put(no_phase(self.alloc));
        Ok(())
    }

    /// The particles of a round have come.
    fn end_round(&mut self, round: u64) -> Result<(), Memory>
        requires { 0 < self.old.face.left }
        ensures ok { OnOk result (self.new ≡ (if nat_lt round self.old.state.job.steps then append_ended self.old round
            else last_ended self.old)) }
        ensures err { OnErr result (self.new ≡ self.old) }
    {
        if round < self.job.steps {
            self.end_append(round)
        } else {
            self.end_last()
        }
    }

    /// On node 0 the lines of all pairs that it has, else nothing.
    fn lines(&self) -> Result<Bytes, Memory>
        ensures { IfOk result (λ text. text ≡ text_of self.now) }
    {
        if self.desk.me() == 0 {
            let pairs = self.all_sorted()?;
            lines(self.alloc, self.job.bins as u32, &pairs)
        } else {
            Ok(Bytes::new(self.alloc))
        }
    }
}

impl Phased for AppendNode {
    ghost use Rattle.chaos_bins.specs.Plan.{AppendPlan, IsAppendPlan, append_rows};

    ghost State = { AppendState };

    ghost Plan = { AppendPlan };

    ghost IsPlan = { IsAppendPlan };

    ghost count = { λ plan. plan.nodes };

    ghost rows = { append_rows };

    ghost holds = { append_holds };

    ghost view = { λ s. s };

    fn next(&self) -> Want {
        self.desk.next()
    }

    fn wanted(&self) -> Wanted {
        self.desk.wanted()
    }

    fn post(&mut self) -> Letter {
        self.desk.post()
    }

    fn take(&mut self, letter: Letter) -> Result<(), TakeFault> {
        self.desk.take(letter)
    }

    fn work(&mut self) -> Result<(), Memory> {
        match self.at {
            Stage::Sizing(round) => self.end_sizes(round),
            Stage::Appending(round) => self.end_round(round),
            Stage::Printing | Stage::Ended => self.end_print(),
        }
    }

    ghost use Rattle.chaos_bins.specs.PlanLaws.{append_falls, append_meets};

    ghost rows_meet = { λ plan is phase. append_meets plan is phase };

    ghost few = { λ plan is. (is.some_nodes, is.few_nodes) };

    ghost rows_fall = { λ plan is phase. append_falls plan phase };
}
