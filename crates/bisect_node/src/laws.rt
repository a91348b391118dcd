//! Laws of the plan. Each function does nothing; its contract is the law.
ghost use Rattle.bisect_node.specs.EndLaws.{EndsBehindPhases, LettersAreOfRounds, NodesEndWithTheMap, RowsMeet};

/// In each phase each node sends to another exactly what that one takes.
pub fn rows_meet()
    ensures { RowsMeet }
{}

/// The plan ends when all its phases are over, and then each pair's letters are those of the rounds.
pub fn letters_are_of_rounds()
    ensures end { EndsBehindPhases }
    ensures letters { LettersAreOfRounds }
{}

/// At the plan's end node 0 has written the map, the part of each element on a line, and the others nothing.
pub fn nodes_end_with_the_map()
    ensures { NodesEndWithTheMap }
{}
