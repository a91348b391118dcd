use chaos_entering::Entered;
use chaos_holdings::Effect;
use chaos_records::Records;
use fd_program::SiteCount;
use fd_words::Bytes;

/// All that a work changes, prepared before any of it is put in place.
#[derive(Drop)]
pub struct Change {
    pub effect: Effect,
    pub line: Bytes,
    pub entered: Entered,
}

/// What the end of an execution changes beside the parts, which have been changed in place.
#[derive(Drop)]
pub struct Executed {
    pub records: Records,
    pub count: SiteCount,
    pub entered: Entered,
}
