use fd_words::List;

/// Nodes in the order of their numbers, seen as a list.
pub type NodeList<N> = List<N>;
