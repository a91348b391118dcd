ghost use Rattle.std.specs.Prelude.{◌≡◌, ℕ, ◌+◌, ◌*◌, ◌<◌, ◌≤◌, List, [], ◌∷◌, ◌++◌, length, take, OnOk, OnErr, IfOk, ◌%◌, slice_index};
ghost use Rattle.std.specs.Prelude.{replicate, map};
ghost use Rattle.bsp_core.specs.Lists.{items_of};
ghost use Rattle.bsp_core.specs.Turns.{WorldState, TurnIs, IsUnchanged, IsStill, AreDone, total, AreTogether, StandsWhereItBegan};
ghost use Rattle.bsp_core.specs.Turns.{KeepsLockstep, Ends, Moves, Plays, Stops, nodes_below, rounds, IsFirst, Draws, next_seed, drawn};
ghost use Rattle.bsp_core.specs.Script.{MovesBy, MovesDrawn};

use crate::turns::turn_of;
use crate::{NodeList, Phased, Played, Turned};
use chaos_letter::{Letter, LetterLists};
use fd_words::{Bytes, Memory};
use std::alloc::Global;
use std::marker::Model;

/// Nodes, every letter that was sent, and how many of them were taken. A queue is what was sent and
/// not taken.
///
/// It is seen as these lists and the node of each turn that moved. Lists of pairs have the pair from p
/// to q at place `p * n + q` for n nodes.
#[derive(Drop)]
pub struct World<N: Phased> {
    alloc: Global,
    nodes: Vec<N>,
    sent: Vec<Vec<Letter>>,
    taken: Vec<usize>,
    moved: Vec<u8>,
}

impl<N: Phased> Model for World<N> {
    ghost use Rattle.std.specs.Prelude.{ℕ, ◌≤◌, length, map};
    ghost use Rattle.bsp_core.specs.Turns.{WorldState, IsInLockstep};

    ghost Value = { WorldState N };

    ghost view = { λ a. record {
      nodes = a.nodes.items;
      sent = map (λ v. v.items) a.sent.items;
      taken = a.taken.items;
      moved = a.moved.items;
    } };

    ghost invariant = { λ a. (length a.nodes.items ≤ 16)
        × ((plan : N.Plan) × N.IsPlan plan × IsInLockstep N.view (N.rows plan) (N.holds plan) (N.count plan)
        (record { nodes = a.nodes.items; sent = map (λ v. v.items) a.sent.items; taken = a.taken.items; moved = a.moved.items })) };
}

/// So many empty lists.
fn no_letters(alloc: Global, count: usize) -> Result<Vec<Vec<Letter>>, Memory>
    ensures { IfOk result (λ v. items_of v.items ≡ replicate count []) }
{
    let mut lists = Vec::new(alloc);
    for _pair in 0..count {
        lists.push(Vec::new(alloc))?;
    }
    Ok(lists)
}

/// So many zeros.
fn zeros(alloc: Global, count: usize) -> Result<Vec<usize>, Memory>
    ensures { IfOk result (λ v. v.items ≡ replicate count 0) }
{
    let mut numbers = Vec::new(alloc);
    for _pair in 0..count {
        numbers.push(0)?;
    }
    Ok(numbers)
}

/// A World of its parts.
fn world_of<N: Phased>(
    alloc: Global,
    nodes: Vec<N>,
    sent: Vec<Vec<Letter>>,
    taken: Vec<usize>,
) -> World<N>
    requires few { length nodes.items ≤ 16 }
    requires together { AreTogether N.view N.IsPlan N.count N.rows N.holds nodes.items }
    requires sent { items_of sent.items ≡ replicate (length nodes.items * length nodes.items) [] }
    requires taken { taken.items ≡ replicate (length nodes.items * length nodes.items) 0 }
    ensures nodes { result.nodes ≡ nodes.items }
    ensures moved { result.moved ≡ [] }
    ensures at { StandsWhereItBegan N.view N.IsPlan N.count N.rows N.holds nodes.items result }
{
    World {
        alloc,
        nodes,
        sent,
        taken,
        moved: Vec::new(alloc),
    }
}

impl<N: Phased> World<N> {
    /// A World of nodes that are together: they begin a plan.
    pub fn new(alloc: Global, nodes: NodeList<N>) -> Result<World<N>, Memory>
        requires together { AreTogether N.view N.IsPlan N.count N.rows N.holds nodes }
        ensures nodes { IfOk result (λ w. w.nodes ≡ nodes) }
        ensures moved { IfOk result (λ w. w.moved ≡ []) }
        ensures at { IfOk result (λ w. StandsWhereItBegan N.view N.IsPlan N.count N.rows N.holds nodes w) }
    {
        let nodes = nodes.into_vec();
        let n = nodes.len();
        let sent = no_letters(alloc, n * n)?;
        let taken = zeros(alloc, n * n)?;
        Ok(world_of(alloc, nodes, sent, taken))
    }
}

impl<N: Phased> World<N> {
    /// How many nodes there are: 1 to 16.
    pub fn count(&self) -> u32
        ensures is { result ≡ length self.now.nodes }
        ensures some { 0 < result }
        ensures few { result ≤ 16 }
    {
        self.nodes.len() as u32
    }

    /// How many turns moved.
    fn moves(&self) -> u64
        ensures { result ≡ length self.now.moved }
    {
        self.moved.len() as u64
    }

    /// How many turns moved after so many.
    fn moves_since(&self, before: u64) -> u64
        requires { before ≤ length self.now.moved }
        ensures { length self.now.moved ≡ before + result }
    {
        self.moves() - before
    }

    /// One turn of a node: its next send, take or work. Only one that moved changes the World.
    pub fn turn(&mut self, node: u32) -> Result<Turned, Memory>
        requires { node < length self.old.nodes }
        ensures at { KeepsLockstep N.view N.IsPlan N.count N.rows N.holds self.old self.new }
        ensures nodes { length self.new.nodes ≡ length self.old.nodes }
        ensures turned { IfOk result (λ t. TurnIs N.view node t self.old self.new) }
        ensures err { OnErr result (IsUnchanged N.view self.old self.new) }
    {
        turn_of(
            self.alloc,
            self.nodes.as_mut_slice(),
            self.sent.as_mut_slice(),
            self.taken.as_mut_slice(),
            &mut self.moved,
            node as usize,
        )
    }

    /// A turn of a node: 1 if it moved.
    fn moved_by(&mut self, node: u32) -> Result<u32, Memory>
        requires { node < length self.old.nodes }
        ensures nodes { length self.new.nodes ≡ length self.old.nodes }
        ensures at { KeepsLockstep N.view N.IsPlan N.count N.rows N.holds self.old self.new }
        ensures one { IfOk result (λ k. k ≤ 1) }
        ensures falls { IfOk result (λ k. 0 < k → total (map N.view self.new.nodes) < total (map N.view self.old.nodes)) }
        ensures moves { IfOk result (λ k. 0 < k → Moves N.view node self.old self.new) }
        ensures same { IfOk result (λ k. k ≡ 0 → self.new ≡ self.old) }
        ensures still { IfOk result (λ k. k ≡ 0 → IsStill N.view node self.old) }
        ensures script { OnOk result (MovesBy N.view N.IsPlan N.count N.rows N.holds (node ∷ []) self.old self.new) }
        ensures err { OnErr result (IsUnchanged N.view self.old self.new) }
    {
        match self.turn(node) {
            Ok(Turned::Moved) => Ok(1),
            Ok(Turned::NotReady) => Ok(0),
            Ok(Turned::Done) => Ok(0),
            Err(_) => Err(Memory),
        }
    }

    /// These turns in order, and how many moved. After want of memory the World is as the turns before left it.
    pub fn play(&mut self, turns: &[u32]) -> Result<u64, Memory>
        requires { (k : ℕ) → k < length turns.now → slice_index turns.now k < length self.old.nodes }
        ensures at { KeepsLockstep N.view N.IsPlan N.count N.rows N.holds self.old self.new }
        ensures nodes { length self.new.nodes ≡ length self.old.nodes }
        ensures plays { OnOk result (Plays N.view turns.now self.old self.new) }
        ensures script { OnOk result (MovesBy N.view N.IsPlan N.count N.rows N.holds turns.now self.old self.new) }
        ensures count { IfOk result (λ k. length self.new.moved ≡ length self.old.moved + k) }
        ensures stops { OnErr result ((k : ℕ) × Stops N.view (take k turns.now) self.old self.new ×
            MovesBy N.view N.IsPlan N.count N.rows N.holds (take k turns.now) self.old self.new) }
    {
        let before = self.moves();
        for node in turns {
            match self.moved_by(*node) {
                Ok(_) => {}
                Err(_) => return Err(Memory),
            }
        }
        Ok(self.moves_since(before))
    }

    /// A turn of each node in order, and how many moved.
    fn sweep(&mut self) -> Result<u32, Memory>
        ensures nodes { length self.new.nodes ≡ length self.old.nodes }
        ensures at { KeepsLockstep N.view N.IsPlan N.count N.rows N.holds self.old self.new }
        ensures plays { OnOk result (Plays N.view (nodes_below (length self.old.nodes)) self.old self.new) }
        ensures script { OnOk result (MovesBy N.view N.IsPlan N.count N.rows N.holds
            (nodes_below (length self.old.nodes)) self.old self.new) }
        ensures falls { IfOk result (λ k. 0 < k → total (map N.view self.new.nodes) < total (map N.view self.old.nodes)) }
        ensures ends { IfOk result (λ k. k ≡ 0 → AreDone N.view self.new.nodes) }
        ensures few { IfOk result (λ k. k ≤ 16) }
        ensures grows { IfOk result (λ k. length self.old.moved + k ≤ length self.new.moved) }
        ensures stops { OnErr result ((k : ℕ) × Stops N.view (nodes_below k) self.old self.new ×
            MovesBy N.view N.IsPlan N.count N.rows N.holds (nodes_below k) self.old self.new) }
    {
        let n = self.nodes.len() as u32;
        let mut moved = 0;
        for node in 0..n {
            match self.moved_by(node) {
                Ok(k) => moved += k,
                Err(_) => return Err(Memory),
            }
        }
        Ok(moved)
    }

    /// Turns of the nodes 0, 1 and so on, and 0 again, until all are done, and how many moved. A node
    /// that is done or not ready is passed over. Want of memory leaves what the turns before did.
    pub fn round_robin(&mut self) -> Result<u64, Memory>
        ensures at { KeepsLockstep N.view N.IsPlan N.count N.rows N.holds self.old self.new }
        ensures nodes { length self.new.nodes ≡ length self.old.nodes }
        ensures plays { OnOk result ((k : ℕ) × Plays N.view (rounds k (length self.old.nodes)) self.old self.new) }
        ensures script { IfOk result (λ k. MovesBy N.view N.IsPlan N.count N.rows N.holds
            (rounds (k + 1) (length self.old.nodes)) self.old self.new) }
        ensures count { IfOk result (λ k. length self.new.moved ≡ length self.old.moved + k) }
        ensures done { OnOk result (AreDone N.view self.new.nodes) }
        ensures over { OnOk result (Ends N.view N.IsPlan N.count N.rows N.holds self.old self.new) }
        ensures stops { OnErr result ((j k : ℕ) × Stops N.view (rounds j (length self.old.nodes) ++ nodes_below k) self.old self.new ×
            MovesBy N.view N.IsPlan N.count N.rows N.holds (rounds j (length self.old.nodes) ++ nodes_below k) self.old self.new) }
    {
        let before = self.moves();
        'rounds: loop {
            match self.sweep() {
                Ok(0) => return Ok(self.moves_since(before)),
                Ok(_) => {}
                Err(_) => return Err(Memory),
            }
        }
    }

    /// A turn of the first node that can move, from this one on and counting round: 0 if there is none.
    fn first_from(&mut self, from: u32) -> Result<u32, Memory>
        requires { from < length self.old.nodes }
        ensures nodes { length self.new.nodes ≡ length self.old.nodes }
        ensures at { KeepsLockstep N.view N.IsPlan N.count N.rows N.holds self.old self.new }
        ensures falls { IfOk result (λ k. 0 < k → total (map N.view self.new.nodes) < total (map N.view self.old.nodes)) }
        ensures moves { IfOk result (λ k. 0 < k → (p : ℕ) × IsFirst N.view from p self.old × Moves N.view p self.old self.new) }
        ensures same { IfOk result (λ k. k ≡ 0 → self.new ≡ self.old) }
        ensures ends { IfOk result (λ k. k ≡ 0 → AreDone N.view self.new.nodes) }
        ensures err { OnErr result (IsUnchanged N.view self.old self.new) }
    {
        let n = self.nodes.len() as u32;
        for k in 0..n {
            match self.moved_by((from + k) % n) {
                Ok(0) => {}
                Ok(_) => return Ok(1),
                Err(_) => return Err(Memory),
            }
        }
        Ok(0)
    }

    /// Turns of drawn nodes until all are done, and how many moved. For a node that is done or not
    /// ready the next one that can move is taken, counting upwards and from the last to 0. Want of
    /// memory leaves what the turns before did.
    pub fn seeded(&mut self, seed: u64) -> Result<u64, Memory>
        ensures at { KeepsLockstep N.view N.IsPlan N.count N.rows N.holds self.old self.new }
        ensures nodes { length self.new.nodes ≡ length self.old.nodes }
        ensures draws { OnOk result ((ps : List ℕ) × (last : ℕ) × Draws N.view seed ps self.old last self.new) }
        ensures script { IfOk result (λ k. MovesDrawn N.view N.IsPlan N.count N.rows N.holds seed k self.old self.new) }
        ensures count { IfOk result (λ k. length self.new.moved ≡ length self.old.moved + k) }
        ensures done { OnOk result (AreDone N.view self.new.nodes) }
        ensures over { OnOk result (Ends N.view N.IsPlan N.count N.rows N.holds self.old self.new) }
        ensures stops { OnErr result ((k : ℕ) × MovesDrawn N.view N.IsPlan N.count N.rows N.holds seed k self.old self.new ×
            (ps : List ℕ) × (last : ℕ) × (mid : WorldState N) × Draws N.view seed ps self.old last mid × IsUnchanged N.view mid self.new) }
    {
        let before = self.moves();
        let n = self.count();
        let mut state = seed;
        'draws: loop {
            state = seed_after(state);
            let from = drawn_of(n, state);
            match self.first_from(from) {
                Ok(0) => return Ok(self.moves_since(before)),
                Ok(_) => {}
                Err(_) => return Err(Memory),
            }
        }
    }

    /// The nodes as they are, the moves that were made and what was sent, which takes no memory.
    pub fn into_parts(self) -> (NodeList<N>, Played)
        ensures nodes { result.0 ≡ self.nodes }
        ensures moved { result.1.moved ≡ self.moved }
        ensures sent { result.1.sent ≡ self.sent }
    {
        let World {
            alloc: _,
            nodes,
            sent,
            taken: _,
            moved,
        } = self;
        let played = Played {
            moved: Bytes::from_vec(moved),
            sent: LetterLists::from_vec(sent),
        };
        (NodeList::from_vec(nodes), played)
    }
}

/// The next number of a seed.
fn seed_after(state: u64) -> u64
    ensures { result ≡ next_seed state }
{
    state
        .wrapping_mul(6364136223846793005)
        .wrapping_add(1442695040888963407)
}

/// The node that a number draws.
fn drawn_of(n: u32, state: u64) -> u32
    requires { 0 < n }
    ensures is { result ≡ drawn n state }
    ensures below { result < n }
{
    ((state >> 33) % u64::from(n)) as u32
}
