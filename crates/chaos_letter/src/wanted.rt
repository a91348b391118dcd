ghost use Rattle.std.specs.Prelude.{◌≡◌, ◌↔◌, IsTrue};
ghost use Rattle.chaos_letter.specs.Fits.{Fits, IsMultiple, IsWantedLength};

use crate::{Kind, Letter};

/// What a node wants of a letter: kind, execution and site, and a length that is a multiple of
/// `group` from `least` to `most`. The one multiple of group 0 is 0.
#[derive(Clone, Copy, Debug, PartialEq, Eq)]
pub struct Wanted {
    pub kind: Kind,
    pub execution: u64,
    pub site: u32,
    pub group: u64,
    pub least: u64,
    pub most: u64,
}

impl Wanted {
    /// Whether the letter is as wanted.
    pub fn fits(&self, letter: &Letter) -> bool
        ensures { IsTrue result ↔ Fits self.now letter.now }
    {
        letter.kind == self.kind
            && letter.execution == self.execution
            && letter.site == self.site
            && self.takes_length(letter.numbers.len())
    }

    /// Whether so many numbers are as wanted.
    fn takes_length(&self, count: u64) -> bool
        ensures { IsTrue result ↔ IsWantedLength self.now count }
    {
        is_multiple(count, self.group) && self.least <= count && count <= self.most
    }
}

/// Whether a number is a multiple of a group.
fn is_multiple(count: u64, group: u64) -> bool
    ensures { IsTrue result ↔ IsMultiple group count }
{
    if group == 0 {
        count == 0
    } else {
        count % group == 0
    }
}
