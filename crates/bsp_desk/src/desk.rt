ghost use Rattle.std.specs.Prelude.{◌≡◌, ℕ, ◌+◌, ◌^◌, ◌<◌, ◌≤◌, ◌∷◌, [], length, vec_capacity, OnOk};
ghost use Rattle.bsp_core.specs.Views.{Ascends, next_of, nodes_in};
ghost use Rattle.bsp_core.specs.declared.phased.Want.TheVariants.{Send, Take};
ghost use Rattle.bsp_desk.specs.Acts.{Gives, Receives, HandsBack};

use bsp_core::{TakeFault, Want};
use chaos_letter::{Letter, Wanted};
use std::collections::VecDeque;
use std::marker::Model;

/// What a phase begins with: the phases left with it, letters by receiver, wants by sender, and room for
/// the letters that are taken.
#[derive(Drop)]
pub struct Phase {
    pub left: u32,
    pub out: VecDeque<(u32, Letter)>,
    pub due: VecDeque<(u32, Wanted)>,
    pub got: Vec<Letter>,
}

/// What a node sends, takes and has taken in a phase; seen as its face.
#[derive(Drop)]
pub struct Desk {
    me: u32,
    count: u32,
    left: u32,
    out: VecDeque<(u32, Letter)>,
    due: VecDeque<(u32, Wanted)>,
    got: Vec<Letter>,
}

impl Model for Desk {
    ghost use Rattle.bsp_core.specs.Views.{Face};
    ghost use Rattle.bsp_desk.specs.Kept.{Kept, shown_desk};

    ghost Value = { Face };

    ghost view = { λ s. shown_desk s };

    ghost invariant = { λ s. Kept s };
}

impl Desk {
    /// The desk of a node, among so many, as its first phase begins.
    pub fn new(me: u32, count: u32, phase: Phase) -> Desk
        requires me { me < count }
        requires few { count ≤ 16 }
        requires left { phase.left < 2 ^ 31 }
        requires out { Ascends me count 0 (nodes_in phase.out.items) }
        requires due { Ascends me count 0 (nodes_in phase.due.items) }
        requires got { phase.got.items ≡ [] }
        requires room { length phase.due.items ≤ vec_capacity phase.got }
        ensures { result ≡ record {
          me = me;
          count = count;
          left = phase.left;
          out = phase.out.items;
          due = phase.due.items;
          got = [];
        } }
    {
        let Phase {
            left,
            out,
            due,
            got,
        } = phase;
        Desk {
            me,
            count,
            left,
            out,
            due,
            got,
        }
    }

    /// Begins the next phase.
    pub fn put(&mut self, phase: Phase)
        requires left { phase.left < 2 ^ 31 }
        requires out { Ascends self.old.me self.old.count 0 (nodes_in phase.out.items) }
        requires due { Ascends self.old.me self.old.count 0 (nodes_in phase.due.items) }
        requires got { phase.got.items ≡ [] }
        requires room { length phase.due.items ≤ vec_capacity phase.got }
        ensures { self.new ≡ record {
          me = self.old.me;
          count = self.old.count;
          left = phase.left;
          out = phase.out.items;
          due = phase.due.items;
          got = [];
        } }
    {
        *self = Desk::new(self.me, self.count, phase);
    }

    /// The number of the node.
    pub fn me(&self) -> u32
        ensures is { result ≡ self.now.me }
        ensures less { self.now.me < self.now.count }
    {
        self.me
    }

    /// How many nodes there are.
    pub fn count(&self) -> u32
        ensures is { result ≡ self.now.count }
        ensures few { self.now.count ≤ 16 }
    {
        self.count
    }

    /// How many phases are left, with this one.
    pub fn left(&self) -> u32
        ensures is { result ≡ self.now.left }
        ensures small { self.now.left < 2 ^ 31 }
    {
        self.left
    }

    /// The letters that were taken in this phase.
    pub fn got(&self) -> &[Letter]
        ensures { result.now ≡ self.now.got }
    {
        self.got.as_slice()
    }

    /// The one action that is due.
    pub fn next(&self) -> Want
        ensures is { result ≡ next_of self.now }
        ensures me { self.now.me < self.now.count }
        ensures few { self.now.count ≤ 16 }
        ensures left { self.now.left < 2 ^ 31 }
        ensures out { Ascends self.now.me self.now.count 0 (nodes_in self.now.out) }
        ensures due { Ascends self.now.me self.now.count 0 (nodes_in self.now.due) }
    {
        if let Some(x) = self.out.front() {
            return Want::Send(x.0);
        }
        if let Some(x) = self.due.front() {
            return Want::Take(x.0);
        }
        if self.left == 0 {
            Want::Done
        } else {
            Want::Work
        }
    }

    /// What is wanted of the letter that is taken next.
    pub fn wanted(&self) -> Wanted
        requires { (from : ℕ) × (next_of self.now ≡ Take from) }
        ensures { (from : ℕ) × (rest : _) × (self.now.due ≡ (from, result) ∷ rest) }
    {
        match self.due.front() {
            Some(x) => x.1,
            None => unreachable!(),
        }
    }

    /// Gives the letter that is sent next, which takes no memory.
    pub fn post(&mut self) -> Letter
        requires { (to : ℕ) × (next_of self.old ≡ Send to) }
        ensures { Gives self.old result self.new }
    {
        match self.out.pop_front() {
            Some(x) => x.1,
            None => unreachable!(),
        }
    }

    /// Takes a letter into room made before. One that doesn't fit is handed back.
    pub fn take(&mut self, letter: Letter) -> Result<(), TakeFault>
        requires { (from : ℕ) × (next_of self.old ≡ Take from) }
        ensures ok { OnOk result (Receives self.old letter self.new) }
        ensures stray { HandsBack self.old letter result self.new }
    {
        let wanted = self.wanted();
        if !wanted.fits(&letter) {
            return Err(TakeFault::Stray {
                wanted,
                got: letter,
            });
        }
        match self.got.push(letter) {
            Ok(()) => {}
            Err(_) => unreachable!(),
        }
        match self.due.pop_front() {
            Some(_) => {}
            None => unreachable!(),
        }
        Ok(())
    }
}
