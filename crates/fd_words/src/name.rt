ghost use Rattle.std.specs.Prelude.{◌≡◌, ◌+◌, ◌<◌, ◌≤◌, ◌==◌, List, [], ◌∷◌, ◌++◌, length, slice_get};

use std::marker::Model;

/// A name of at most 31 bytes, seen as a list of bytes.
#[derive(Clone, Copy, Debug, PartialEq, Eq)]
pub struct Name {
    bytes: [u8; 31],
    len: u8,
}

impl Model for Name {
    ghost use Rattle.std.specs.Prelude.{List, ℕ};

    ghost Value = { List ℕ };

    ghost use Rattle.fd_words.specs.ShortName.{shown, IsPadded, padded, padded-shown};

    ghost view = { shown };

    ghost invariant = { IsPadded };

    ghost inverse = { padded };

    ghost inverse_ok = { padded-shown };
}

impl Name {
    /// The longest name has so many bytes.
    pub const MOST: usize = 31;

    /// The name of no bytes.
    pub fn new() -> Name
        ensures { result ≡ [] }
    {
        Name {
            bytes: [0; 31],
            len: 0,
        }
    }

    /// Appends a byte to a name that has room.
    pub fn push(&mut self, byte: u8)
        requires { length self.old < 31 }
        ensures { self.new ≡ self.old ++ byte ∷ [] }
    {
        self.bytes[self.len as usize] = byte;
        self.len += 1;
    }

    /// The byte at a place from 0; none from the end on.
    pub fn get(&self, at: u64) -> Option<u8>
        ensures { result ≡ slice_get self.now at }
    {
        self.as_slice().get(at as usize).copied()
    }

    pub fn len(&self) -> u8
        ensures length { result ≡ length self.now }
        ensures most { length self.now ≤ 31 }
    {
        self.len
    }

    pub fn is_empty(&self) -> bool
        ensures { result ≡ (length self.now == 0) }
    {
        self.len() == 0
    }

    pub fn as_slice(&self) -> &[u8]
        ensures { result.now ≡ self.now }
    {
        &self.bytes[..self.len as usize]
    }
}
