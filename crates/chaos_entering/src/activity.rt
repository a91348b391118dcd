use chaos_executing::Executing;
use chaos_inspect::Inspection;
use chaos_moving::Moving;
use fd_words::Numbers;
use sqlite_items::Items;

/// What a node does in a phase, with what the earlier phases of the step gave.
#[derive(Drop)]
pub enum Activity {
    /// An array is printed for a PRINT.
    Printing,
    /// The array of OUTPUT with this number, from 0, is printed.
    Output(u32),
    /// A decomposition is moved.
    Moving(Moving),
    /// A FORALL is inspected.
    Inspecting(Inspection),
    /// A FORALL is executed: ghosts are gathered.
    Gathering,
    /// A FORALL is executed: contributions are scattered.
    Scattering(Executing),
    /// No phase is left.
    Ended,
}

/// Where a node is: the execution and the array, decomposition or FORALL that the letters of its phase
/// name, what it does there, the list that it has for itself, and how long each list is that it sends, by
/// receiver.
#[derive(Drop)]
pub struct At {
    pub execution: u64,
    pub site: u32,
    pub activity: Activity,
    pub own: Numbers,
    pub sizes: Items<u64>,
}
