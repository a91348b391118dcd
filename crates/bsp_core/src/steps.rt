//! The three actions of a turn, over the lists of a World.

ghost use Rattle.std.specs.Prelude.{◌≡◌, ℕ, ◌+◌, ◌<◌, ◌≤◌, List, [], ◌∷◌, ◌++◌, length, map, OnOk, OnErr, slice_get, slice_set};
ghost use Rattle.std.specs.Prelude.{vec_capacity, vec_len};
ghost use Rattle.std.proofs.Common.{get_or};
ghost use Rattle.bsp_core.specs.Views.{View, next_of, Posts, Takes, WorksFor, Below};
ghost use Rattle.chaos_letter.specs.Fits.{Fits};
ghost use Rattle.bsp_core.specs.Lists.{items_of, OnOkTrue, OnOkFalse};
ghost use Rattle.bsp_core.specs.declared.phased.Want.TheVariants.{Send, Take, Work};

use crate::{Phased, TakeFault, Want};
use chaos_letter::{Letter, Wanted};
use fd_words::Memory;
use std::alloc::Global;

/// Appends to a list that has room.
fn push_in_room<T: Drop>(list: &mut Vec<T>, item: T)
    requires { vec_len list.old < vec_capacity list.old }
    ensures { list.new.items ≡ list.old.items ++ item ∷ [] }
{
    match list.push(item) {
        Ok(()) => {}
        Err(_) => unreachable!(),
    }
}

/// What the node at a place wants.
pub fn next_at<N: Phased>(nodes: &[N], at: usize) -> Want
    requires { at < length nodes.now }
    ensures { (v : N) × (slice_get nodes.now at ≡ Some v) × (result ≡ next_of (N.view v).face) × Below result (N.view v).face.count }
{
    nodes[at].next()
}

/// A node sends its next letter.
pub fn send_at<N: Phased>(
    nodes: &mut [N],
    sent: &mut [Vec<Letter>],
    moved: &mut Vec<u8>,
    at: usize,
    place: usize,
) -> Result<(), Memory>
    requires at { at < length nodes.old }
    requires small { at < 256 }
    requires place { place < length sent.old }
    requires due { (v : N) → slice_get nodes.old at ≡ Some v → (to : ℕ) × (next_of (N.view v).face ≡ Send to) }
    ensures ok { OnOk result ((v w : N) × (x : Letter) × (slice_get nodes.old at ≡ Some v) ×
        Posts (N.view v) x (N.view w) × (nodes.new ≡ slice_set nodes.old at w) ×
        (items_of sent.new ≡ slice_set (items_of sent.old) place (get_or (items_of sent.old) place [] ++ x ∷ [])) ×
        (moved.new.items ≡ moved.old.items ++ at ∷ [])) }
    ensures err { OnErr result ((nodes.new ≡ nodes.old) × (items_of sent.new ≡ items_of sent.old) × (moved.new.items ≡ moved.old.items)) }
{
    moved.reserve(1)?;
    let list = &mut sent[place];
    list.reserve(1)?;
    let node = &mut nodes[at];
    let letter = node.post();
    push_in_room(list, letter);
    push_in_room(moved, at as u8);
    Ok(())
}

/// A node takes the next letter of a list, if there is one.
pub fn take_at<N: Phased>(
    alloc: Global,
    nodes: &mut [N],
    sent: &[Vec<Letter>],
    taken: &mut [usize],
    moved: &mut Vec<u8>,
    at: usize,
    place: usize,
) -> Result<bool, Memory>
    requires at { at < length nodes.old }
    requires small { at < 256 }
    requires place { place < length sent.now }
    requires place_taken { place < length taken.old }
    requires due { (v : N) → slice_get nodes.old at ≡ Some v → (from : ℕ) × (next_of (N.view v).face ≡ Take from) }
    requires fits { (v : N) (from : ℕ) (wanted : Wanted) (rest : List (ℕ × Wanted)) (x : Letter) →
        slice_get nodes.old at ≡ Some v → (N.view v).face.due ≡ (from, wanted) ∷ rest →
        slice_get (get_or (items_of sent.now) place []) (get_or taken.old place 0) ≡ Some x →
        Fits wanted x }
    ensures ok { OnOkTrue result ((v w : N) × (x : Letter) × (slice_get nodes.old at ≡ Some v) ×
        (slice_get (get_or (items_of sent.now) place []) (get_or taken.old place 0) ≡ Some x) ×
        Takes (N.view v) x (N.view w) × (nodes.new ≡ slice_set nodes.old at w) ×
        (taken.new ≡ slice_set taken.old place (get_or taken.old place 0 + 1)) ×
        (moved.new.items ≡ moved.old.items ++ at ∷ [])) }
    ensures empty { OnOkFalse result (length (get_or (items_of sent.now) place []) ≤ get_or taken.old place 0) }
    ensures still { OnOkFalse result ((nodes.new ≡ nodes.old) × (taken.new ≡ taken.old) × (moved.new.items ≡ moved.old.items)) }
    ensures err { OnErr result ((nodes.new ≡ nodes.old) × (taken.new ≡ taken.old) × (moved.new.items ≡ moved.old.items)) }
{
    let count = taken[place];
    let list = &sent[place];
    match list.get(count) {
        None => Ok(false),
        Some(letter) => {
            let letter = letter.copy(alloc)?;
            moved.reserve(1)?;
            let node = &mut nodes[at];
            match node.take(letter) {
                Ok(()) => {}
                Err(TakeFault::Stray { wanted: _, got: _ }) => unreachable!(),
            }
            taken[place] = count + 1;
            push_in_room(moved, at as u8);
            Ok(true)
        }
    }
}

/// A node works.
pub fn work_at<N: Phased>(nodes: &mut [N], moved: &mut Vec<u8>, at: usize) -> Result<(), Memory>
    requires at { at < length nodes.old }
    requires small { at < 256 }
    requires due { (v : N) → slice_get nodes.old at ≡ Some v → next_of (N.view v).face ≡ Work }
    ensures ok { OnOk result ((v w : N) × (slice_get nodes.old at ≡ Some v) ×
        WorksFor N.IsPlan N.count N.rows N.holds (N.view v) (N.view w) ×
        ((N.view w).face.left < (N.view v).face.left) × (nodes.new ≡ slice_set nodes.old at w) ×
        (moved.new.items ≡ moved.old.items ++ at ∷ [])) }
    ensures err { OnErr result ((map N.view nodes.new ≡ map N.view nodes.old) × (moved.new.items ≡ moved.old.items)) }
{
    moved.reserve(1)?;
    let node = &mut nodes[at];
    node.work()?;
    push_in_room(moved, at as u8);
    Ok(())
}
