ghost use Rattle.std.specs.Prelude.{◌≡◌, ◌↔◌};

use std::alloc::Global;
use std::env;
use std::env::Env;
use std::io::ErrorKind;

/// Why there are no words: one of them is no text, or memory is wanting.
#[derive(Clone, Copy, Debug, PartialEq, Eq)]
pub enum WordsStop {
    NoText,
    Memory,
}

impl WordsStop {
    /// The status of a program that has no words.
    pub fn status(self) -> u8
        ensures no_text { self ≡ WordsStop.NoText → result ≡ 2 }
        ensures memory { self ≡ WordsStop.Memory → result ≡ 70 }
    {
        match self {
            WordsStop::NoText => 2,
            WordsStop::Memory => 70,
        }
    }
}

/// Why the arguments can't be had, by the kind of their error.
fn stop_by(kind: ErrorKind) -> WordsStop
    ensures { (result ≡ WordsStop.Memory) ↔ (kind ≡ ErrorKind.OutOfMemory) }
{
    match kind {
        ErrorKind::OutOfMemory => WordsStop::Memory,
        _ => WordsStop::NoText,
    }
}

/// The words behind the program's name. Each is copied, which takes memory, and a word that isn't UTF-8 is no text.
pub fn words<R: Env + Alloc<A = Global>>(rt: &R) -> Result<Vec<String>, WordsStop> {
    let args = match env::args(rt) {
        Ok(args) => args,
        Err(error) => return Err(stop_by(error.kind())),
    };
    match args.skip(1).collect(rt.alloc()) {
        Ok(words) => Ok(words),
        Err(_) => Err(WordsStop::Memory),
    }
}
