use fd_words::Offence;

/// A FORALL that was refused, by number, and its offence.
#[derive(Clone, Copy, Debug, PartialEq, Eq)]
pub struct Refused {
    pub site: u32,
    pub offence: Offence,
}
