ghost use Rattle.std.specs.Prelude.{◌≡◌, [], ◌∷◌, ◌++◌, ◌==◌, length, map, slice_get, slice_set, OnOk, OnErr};
ghost use Rattle.std.specs.Option.{option_copied};
ghost use Rattle.fd_words.specs.Lists.{list_at};

use crate::{Letter, Letters};
use fd_words::{List, Memory};
use std::alloc::Global;
use std::marker::Model;

/// Lists of letters, as one for each pair of nodes; seen as a list of lists.
#[derive(Debug, Drop)]
pub struct LetterLists {
    lists: List<Vec<Letter>>,
}

impl Model for LetterLists {
    ghost use Rattle.std.specs.Prelude.{List, map};
    ghost use Rattle.chaos_letter.specs.declared.letter.Letter.{Letter};

    ghost Value = { List (List Letter) };

    ghost view = { λ l. map (λ v. v.items) l.lists };
}

impl LetterLists {
    /// No list, which takes no memory.
    pub fn new(alloc: Global) -> LetterLists
        ensures { result ≡ [] }
    {
        LetterLists::from_vec(Vec::new(alloc))
    }

    /// The lists of a `Vec`, which takes no memory.
    pub fn from_vec(lists: Vec<Vec<Letter>>) -> LetterLists
        ensures { result ≡ map (λ v. v.items) lists.items }
    {
        LetterLists {
            lists: List::from_vec(lists),
        }
    }

    /// Appends a list.
    pub fn push(&mut self, list: Letters) -> Result<(), Memory>
        ensures ok { OnOk result (self.new ≡ self.old ++ list ∷ []) }
        ensures err { OnErr result (self.new ≡ self.old) }
    {
        self.lists.push(list.into_vec())
    }

    /// Puts another list at a place; nothing from the end on.
    pub fn put(&mut self, at: u64, list: Letters)
        ensures { self.new ≡ slice_set self.old at list }
    {
        self.lists.put(at, list.into_vec());
    }

    /// The list at a place from 0, which is empty from the end on.
    pub fn list(&self, at: u64) -> &[Letter]
        ensures { result.now ≡ list_at self.now at }
    {
        match self.lists.get(at) {
            Some(list) => list.as_slice(),
            None => &[],
        }
    }

    /// The letter at a place of the list at a place; none where either isn't there.
    pub fn get(&self, list: u64, at: u64) -> Option<&Letter>
        ensures { option_copied result ≡ slice_get (list_at self.now list) at }
    {
        self.list(list).get(at as usize)
    }

    pub fn len(&self) -> u64
        ensures { result ≡ length self.now }
    {
        self.lists.len()
    }

    pub fn is_empty(&self) -> bool
        ensures { result ≡ (length self.now == 0) }
    {
        self.lists.is_empty()
    }
}
