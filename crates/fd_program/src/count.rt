ghost use Rattle.std.specs.Prelude.{◌≡◌};
ghost use Rattle.fd_program.specs.Reports.{no_count};

use sqlite_items::Items;

/// How often a FORALL was executed with a range that isn't empty, how often it was inspected for that,
/// and how many elements were gathered and scattered for it.
#[derive(Clone, Copy, Debug, PartialEq, Eq)]
pub struct SiteCount {
    pub executed: u64,
    pub inspected: u64,
    pub gathered: u64,
    pub scattered: u64,
}

impl SiteCount {
    /// Nothing is counted yet.
    pub fn none() -> SiteCount
        ensures { result ≡ no_count }
    {
        SiteCount {
            executed: 0,
            inspected: 0,
            gathered: 0,
            scattered: 0,
        }
    }
}

/// The counts of the FORALLs by number.
pub type SiteCounts = Items<SiteCount>;
