/// What a letter is for. Beside each kind stand its numbers, and in brackets the group that they come in.
/// Elements are from 1, local addresses from 0.
#[derive(Clone, Copy, Debug, PartialEq, Eq)]
pub enum Kind {
    /// Element of a decomposition and its owner by the map; ascending [2].
    MapPairs,
    /// For each node, how many elements of the sender's page it owns [1].
    PageCounts,
    /// Decomposition and element [2].
    DerefAsk,
    /// Owner and local address, in the order of the ask [2].
    DerefAnswer,
    /// Array and local address [2].
    IndexAsk,
    /// Values of index arrays, in the order of the ask [1].
    IndexValues,
    /// Nothing, or iteration, reference, and the high and low half of the subscript [4].
    Vote,
    /// Iteration and the values of its index references; ascending [1, and 1 for each index reference].
    Iterations,
    /// 0 for a read or 1 for a target, array, element and local address; ascending [4].
    ScheduleAsk,
    /// Reference, element and iteration; ascending [3].
    Claims,
    /// Nothing, or first and second iteration, reference and element [4].
    ClashVote,
    /// Array, element and value; ascending [3].
    Gather,
    /// Array, element and value; ascending [3].
    Scatter,
    /// Element of a decomposition and the values of its arrays there; ascending [1, and 1 for each array].
    Remap,
    /// Element, or bin, and value; ascending [2].
    Print,
    /// For each region its least and greatest coordinate on each axis [2 for each axis].
    Spread,
    /// For each region, how many of the sender's keys there are below the candidate [1].
    Rank,
    /// How many particles follow [1].
    Sizes,
    /// Bin and value, in any order [2].
    Append,
}
