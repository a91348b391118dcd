ghost use Rattle.std.specs.Prelude.{◌≡◌, IfOk};

use crate::Kind;
use fd_words::{Memory, Numbers};
use std::alloc::Global;

/// What one node tells another in a phase: what for, of which execution and which site (or
/// decomposition, or array), and the numbers.
#[derive(Debug, Drop)]
pub struct Letter {
    pub kind: Kind,
    pub execution: u64,
    pub site: u32,
    pub numbers: Numbers,
}

impl Letter {
    /// A letter, which takes no memory.
    pub fn new(kind: Kind, execution: u64, site: u32, numbers: Numbers) -> Letter
        ensures { result ≡ record { kind = kind; execution = execution; site = site; numbers = numbers } }
    {
        Letter {
            kind,
            execution,
            site,
            numbers,
        }
    }

    pub fn kind(&self) -> Kind
        ensures { result ≡ self.now.kind }
    {
        self.kind
    }

    pub fn execution(&self) -> u64
        ensures { result ≡ self.now.execution }
    {
        self.execution
    }

    pub fn site(&self) -> u32
        ensures { result ≡ self.now.site }
    {
        self.site
    }

    pub fn numbers(&self) -> &Numbers
        ensures { result.now ≡ self.now.numbers }
    {
        &self.numbers
    }

    /// An equal letter.
    pub fn copy(&self, alloc: Global) -> Result<Letter, Memory>
        ensures { IfOk result (λ letter. letter ≡ self.now) }
    {
        let numbers = self.numbers.copy(alloc)?;
        Ok(Letter::new(self.kind, self.execution, self.site, numbers))
    }
}
