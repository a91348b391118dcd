ghost use Rattle.std.specs.Prelude.{◌≡◌};
ghost use Rattle.fd_words.specs.Roles.{is_index as is_index_of, is_target as is_target_of};

use sqlite_items::Items;

/// What a reference does: an index reference gives another reference's subscript, a read stands in an
/// expression, a target is assigned or reduced into.
#[derive(Clone, Copy, Debug, PartialEq, Eq)]
pub enum Role {
    Index,
    Read,
    Target,
}

impl Role {
    pub fn is_index(self) -> bool
        ensures { result ≡ is_index_of self }
    {
        match self {
            Role::Index => true,
            Role::Read | Role::Target => false,
        }
    }

    pub fn is_target(self) -> bool
        ensures { result ≡ is_target_of self }
    {
        match self {
            Role::Target => true,
            Role::Index | Role::Read => false,
        }
    }
}

/// Where an element stands: the node that owns it, and its local address there, from 0.
#[derive(Clone, Copy, Debug, PartialEq, Eq)]
pub struct Place {
    pub owner: u32,
    pub local: u64,
}

/// Places, seen as a list.
pub type Places = Items<Place>;

/// A subscript outside its array: at which iteration, at which reference from 1, and its exact number.
#[derive(Clone, Copy, Debug, PartialEq, Eq)]
pub struct Offence {
    pub iteration: i64,
    pub reference: u32,
    pub subscript: i128,
}
