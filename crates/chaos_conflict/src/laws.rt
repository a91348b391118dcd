ghost use Rattle.std.specs.Prelude.{◌≡◌, ◌^◌, ◌<◌, Some, None};
ghost use Rattle.chaos_conflict.specs.declared.conflict.Conflict.{Conflict};
ghost use Rattle.chaos_conflict.specs.Rows.{RowsAreRead};
ghost use Rattle.chaos_conflict.specs.RowLaws.{RowsAreInOrder};
ghost use Rattle.chaos_conflict.specs.ClashLaws.{AdjacentIsLeast, OneIsLeast};
ghost use Rattle.chaos_conflict.specs.PartLaws.{FirstIsLeast};
ghost use Rattle.chaos_conflict.specs.Votes.{clash_numbers_of, read_clash};

/// A vote, and rows, are what is read of their numbers. Rows in order have the same rows, each once, and no other
/// list that ascends has them. The least clash of rows in order is that of two side by side, and no other is the
/// least of the same rows. The least of what nodes have of a list of conflicts that ascends is its first.
pub fn conflict_laws()
    ensures none { read_clash (clash_numbers_of None) ≡ None }
    ensures some { (c : Conflict) → c.reference < 2 ^ 32 → c.element < 2 ^ 64 → read_clash (clash_numbers_of (Some c)) ≡ Some c }
    ensures read { RowsAreRead }
    ensures order { RowsAreInOrder }
    ensures adjacent { AdjacentIsLeast }
    ensures one { OneIsLeast }
    ensures first { FirstIsLeast }
{}
