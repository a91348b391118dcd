ghost use Rattle.std.specs.Prelude.{◌≡◌, ℕ, ◌+◌, ◌^◌, ◌<◌, ◌≤◌, ◌∷◌, [], length, vec_capacity, ◌↔◌, IfOk, IfSome, IsSome, OnOk, OnErr};
ghost use Rattle.bsp_core.specs.Views.{Ascends, IsStray, Posts, Takes, next_of, nodes_in};
ghost use Rattle.bsp_core.specs.declared.phased.Want.TheVariants.{Done, Send, Take, Work};
ghost use Rattle.fd_program.specs.Checks.{IsChecked};

use bsp_core::{Phased, TakeFault, Want};
use chaos_entering::At;
use chaos_holdings::{Holdings, NodeEnd, Session};
use chaos_letter::{Letter, Wanted};
use chaos_move::Undo;
use fd_words::{Bytes, Memory, Numbers};
use std::alloc::Global;
use std::collections::VecDeque;
use std::marker::Model;

/// A node.
#[derive(Drop)]
pub struct Node<'a> {
    pub(crate) alloc: Global,
    pub(crate) session: &'a Session,
    pub(crate) me: u32,
    pub(crate) left: u32,
    pub(crate) at: At,
    pub(crate) holdings: Holdings,
    pub(crate) text: Bytes,
    pub(crate) inspected: Numbers,
    pub(crate) end: NodeEnd,
    pub(crate) out: VecDeque<(u32, Letter)>,
    pub(crate) due: VecDeque<(u32, Wanted)>,
    pub(crate) got: Vec<Letter>,
    /// Empty between works; its room stays from step to step.
    pub(crate) undo: Undo,
}

impl<'a> Model for Node<'a> {
    ghost use Rattle.bsp_core.specs.Views.{View};
    ghost use Rattle.chaos_entering.specs.State.{NodeState};
    ghost use Rattle.fd_program.specs.contracts.scalar.CheckedScalar as scalar;
    ghost use Rattle.fd_program.specs.contracts.body.CheckedExpr as expr;
    ghost use Rattle.std.specs.Coded.{codes};

    ghost Value = { View NodeState };

    ghost use Rattle.chaos_hash.specs.Stamps.{stamps_code};

    ghost coded = { Prim.hlevel (codes, scalar.the_row.coded, expr.the_row.coded, stamps_code) };

    ghost use Rattle.chaos_node.specs.Kept.{KeepsNode, shown_node};

    ghost view = { λ s. shown_node s };

    ghost invariant = { λ s. KeepsNode s };
}

impl<'a> Node<'a> {
    pub(crate) fn next_action(&self) -> Want
        ensures is { result ≡ next_of self.now.face }
        ensures me { self.now.face.me < self.now.face.count }
        ensures few { self.now.face.count ≤ 16 }
        ensures left { self.now.face.left < 2 ^ 31 }
        ensures out { Ascends self.now.face.me self.now.face.count 0 (nodes_in self.now.face.out) }
        ensures due { Ascends self.now.face.me self.now.face.count 0 (nodes_in self.now.face.due) }
    {
        if let Some(x) = self.out.front() {
            return Want::Send(x.0);
        }
        if let Some(x) = self.due.front() {
            return Want::Take(x.0);
        }
        if self.left == 0 {
            Want::Done
        } else {
            Want::Work
        }
    }

    pub(crate) fn next_wanted(&self) -> Wanted
        requires { (from : ℕ) × (next_of self.now.face ≡ Take from) }
        ensures { (from : ℕ) × (rest : _) × (self.now.face.due ≡ (from, result) ∷ rest) }
    {
        match self.due.front() {
            Some(x) => x.1,
            None => unreachable!(),
        }
    }

    pub(crate) fn post_next(&mut self) -> Letter
        requires { (to : ℕ) × (next_of self.old.face ≡ Send to) }
        ensures { Posts self.old result self.new }
    {
        match self.out.pop_front() {
            Some(x) => x.1,
            None => unreachable!(),
        }
    }

    pub(crate) fn take_next(&mut self, letter: Letter) -> Result<(), TakeFault>
        requires { (from : ℕ) × (next_of self.old.face ≡ Take from) }
        ensures ok { OnOk result (Takes self.old letter self.new) }
        ensures stray { IsStray self.old letter result self.new }
    {
        let wanted = self.next_wanted();
        if !wanted.fits(&letter) {
            return Err(TakeFault::Stray {
                wanted,
                got: letter,
            });
        }
        match self.got.push(letter) {
            Ok(()) => {}
            Err(_) => unreachable!(),
        }
        match self.due.pop_front() {
            Some(_) => {}
            None => unreachable!(),
        }
        Ok(())
    }
}
