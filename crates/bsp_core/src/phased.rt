ghost use Rattle.std.specs.Prelude.{◌≡◌, ℕ, ◌+◌, ◌-◌, ◌^◌, ◌<◌, ◌≤◌, ◌∷◌, OnOk, OnErr};
ghost use Rattle.bsp_core.specs.Views.{Face, View, next_of, Posts, Takes, IsStray, Meets, Ascends, WorksFor, nodes_in};
ghost use Rattle.bsp_core.specs.declared.phased.Want.TheVariants.{Send, Take, Work, Done};

use chaos_letter::{Letter, Wanted};
use fd_words::Memory;

/// The one action of a node that is due: a send to a node, a take from a node, a work, or none.
#[derive(Clone, Copy, Debug, PartialEq, Eq)]
pub enum Want {
    Send(u32),
    Take(u32),
    Work,
    Done,
}

/// Why a letter wasn't taken: it doesn't fit what is wanted, and is handed back.
#[derive(Debug, Drop)]
pub enum TakeFault {
    Stray { wanted: Wanted, got: Letter },
}

/// A node that goes through phases.
///
/// It is seen as a face, which is moved by the actions in one fixed way, and a state, which is
/// whatever else it knows. A run is given by a plan. The plan has for each phase and node the face
/// and what holds of the state as the phase begins. A work takes a node from the end of a phase of a
/// plan to the beginning of the next.
pub trait Phased: Drop {
    /// What a node knows that no letter shows yet.
    ghost State: { Type 0 };

    /// What a run is given by.
    ghost Plan: { Type 0 };

    /// The plan can be.
    ghost IsPlan: { Plan → Type 0 };

    /// How many nodes it has.
    ghost count: { Plan → ℕ };

    /// The face of a node as a phase begins, by phase and node.
    ghost rows: { Plan → ℕ → ℕ → Face };

    /// What holds of a node's state as a phase begins, by phase and node.
    ghost holds: { Plan → ℕ → ℕ → State → Type 0 };

    /// What a node is seen as.
    ghost view: { Self → View State };

    /// The one action that is due.
    fn next(&self) -> Want
        ensures is { result ≡ next_of (view self.now).face }
        ensures me { (view self.now).face.me < (view self.now).face.count }
        ensures few { (view self.now).face.count ≤ 16 }
        ensures left { (view self.now).face.left < 2 ^ 31 }
        ensures out { Ascends (view self.now).face.me (view self.now).face.count 0 (nodes_in (view self.now).face.out) }
        ensures due { Ascends (view self.now).face.me (view self.now).face.count 0 (nodes_in (view self.now).face.due) };

    /// What is wanted of the letter that is taken next.
    fn wanted(&self) -> Wanted
        requires { (from : ℕ) × (next_of (view self.now).face ≡ Take from) }
        ensures { (from : ℕ) × (rest : _) × ((view self.now).face.due ≡ (from, result) ∷ rest) };

    /// Gives the letter that is sent next, which takes no memory.
    fn post(&mut self) -> Letter
        requires { (to : ℕ) × (next_of (view self.old).face ≡ Send to) }
        ensures { Posts (view self.old) result (view self.new) };

    /// Takes a letter into room made before. One that doesn't fit is handed back.
    fn take(&mut self, letter: Letter) -> Result<(), TakeFault>
        requires { (from : ℕ) × (next_of (view self.old).face ≡ Take from) }
        ensures ok { OnOk result (Takes (view self.old) letter (view self.new)) }
        ensures stray { IsStray (view self.old) letter result (view self.new) };

    /// Reads the letters that were taken, and prepares the next phase.
    fn work(&mut self) -> Result<(), Memory>
        requires { next_of (view self.old).face ≡ Work }
        ensures ok { OnOk result (WorksFor IsPlan count rows holds (view self.old) (view self.new)) }
        ensures me { (view self.new).face.me ≡ (view self.old).face.me }
        ensures count { (view self.new).face.count ≡ (view self.old).face.count }
        ensures left { OnOk result ((view self.new).face.left < (view self.old).face.left) }
        ensures err { OnErr result (view self.new ≡ view self.old) };

    /// As a phase begins, each node sends to another exactly what that one takes.
    ghost rows_meet: { (plan : Plan) → IsPlan plan → (t : ℕ) → Meets (count plan) (rows plan t) };

    /// There are one to sixteen nodes.
    ghost few: { (plan : Plan) → IsPlan plan → (0 < count plan) × (count plan ≤ 16) };

    /// The phases left fall from phase to phase.
    ghost rows_fall: { (plan : Plan) → IsPlan plan → (t : ℕ) → (rows plan (t + 1) 0).left ≤ (rows plan t 0).left - 1 };
}
