ghost use Rattle.std.specs.Prelude.{◌≡◌, [], ◌++◌, ◌∷◌, None, nat_eq, OnOk};
ghost use Rattle.std.specs.Hash as fed;
ghost use Rattle.std.specs.Cmp.Lexicographic.{pointwise};
ghost use Rattle.std.specs.Cmp.Rules.{comparing, hashing};
ghost use Rattle.std.specs.List.{list_any};
ghost use Rattle.std.proofs.Common.{rules};
ghost use Rattle.fd_scope.specs.Names.{name_eq, found, is_earlier, declared_before, known, with_loop};

use fd_words::{Memory, Name, SourcePlace};
use indexmap::{IndexMap, IndexSet};
use std::alloc::Global;
use std::hash::{Hash, Hasher};
use std::marker::Model;

/// A name as a key, seen as its bytes.
#[derive(Clone, Copy, Debug)]
struct Key {
    name: Name,
}

impl Model for Key {
    ghost use Rattle.std.specs.Prelude.{List, ℕ};

    ghost Value = { List ℕ };

    ghost view = { λ k. k.name };

    ghost inverse = { λ name. record { name = name } };
}

impl PartialEq for Key {
    ghost eq = { pointwise nat_eq };

    ghost laws = { Prim.search (comparing, rules) };

    fn eq(&self, other: &Key) -> bool {
        self.name.as_slice() == other.name.as_slice()
    }
}

impl Eq for Key {
    ghost laws = { Prim.search (comparing, rules) };
}

impl Hash for Key {
    ghost hash_input = { λ name. fed.slice fed.u8 name };

    ghost respects_eq = { Prim.search (hashing, rules) };

    fn hash<H: Hasher>(&self, state: &mut H) {
        self.name.as_slice().hash(state);
    }
}

/// What a name is: a constant, with its value if it has one, or the array or decomposition with a number.
#[derive(Clone, Copy, Debug, PartialEq, Eq)]
pub enum Meaning {
    Constant(Option<i64>),
    Array(u32),
    Decomposition(u32),
}

/// What a name is, and where it is declared.
#[derive(Clone, Copy, Debug, PartialEq, Eq)]
pub struct Known {
    pub at: SourcePlace,
    pub meaning: Meaning,
}

/// The declared names in order, each once.
#[derive(Drop)]
pub struct Names {
    map: IndexMap<Key, Known>,
}

impl Model for Names {
    ghost use Rattle.std.specs.Prelude.{List, ℕ};
    ghost use Rattle.fd_scope.specs.declared.names.Known.{Known};

    ghost Value = { List (List ℕ × Known) };

    ghost view = { λ n. n.map.entries };
}

fn earlier(place: SourcePlace, other: SourcePlace) -> bool
    ensures { result ≡ is_earlier place other }
{
    place.line < other.line || (place.line == other.line && place.column < other.column)
}

impl Names {
    pub fn new(alloc: Global) -> Names
        ensures { result ≡ [] }
    {
        Names {
            map: IndexMap::new(alloc),
        }
    }

    pub fn find(&self, name: Name) -> Option<Known>
        ensures { result ≡ found self.now name }
    {
        self.map.get(&Key { name }).copied()
    }

    /// What a name is at a place, where it is declared before it.
    pub fn known(&self, here: SourcePlace, name: Name) -> Option<Known>
        ensures { result ≡ known self.now here name }
    {
        match self.find(name) {
            Some(known) => {
                if earlier(known.at, here) {
                    Some(known)
                } else {
                    None
                }
            }
            None => None,
        }
    }

    /// Adds a name that is new.
    pub fn add(&mut self, name: Name, known: Known) -> Result<(), Memory>
        requires new { found self.old name ≡ None }
        ensures added { OnOk result (self.new ≡ self.old ++ (name, known) ∷ []) }
    {
        match self.map.insert(Key { name }, known) {
            Ok(_) => {}
            Err(_) => return Err(Memory),
        }
        Ok(())
    }
}

/// The names that are the index of a FORALL or the variable of a DO somewhere, each once.
#[derive(Drop)]
pub struct LoopNames {
    set: IndexSet<Key>,
}

impl Model for LoopNames {
    ghost use Rattle.std.specs.Prelude.{List, ℕ};

    ghost Value = { List (List ℕ) };

    ghost view = { λ n. n.set.keys };
}

impl LoopNames {
    pub fn new(alloc: Global) -> LoopNames
        ensures { result ≡ [] }
    {
        LoopNames {
            set: IndexSet::new(alloc),
        }
    }

    pub fn has(&self, name: Name) -> bool
        ensures { result ≡ list_any (name_eq name) self.now }
    {
        self.set.contains(&Key { name })
    }

    /// Adds a name, unless it is there.
    pub fn add(&mut self, name: Name) -> Result<(), Memory>
        ensures { OnOk result (self.new ≡ with_loop self.old name) }
    {
        match self.set.insert(Key { name }) {
            Ok(_) => Ok(()),
            Err(_) => Err(Memory),
        }
    }
}
