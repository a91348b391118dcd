//! The moves of two voters, computed.

ghost use Rattle.std.specs.Prelude.{◌≡◌, [], ◌∷◌, false, true};
ghost use Rattle.bsp_core.specs.Script.{drawn_moves, round_moves};
ghost use Rattle.bsp_example.specs.Rows.{voter_row};

/// Of two voters with no flag set node 0 waits for node 1 in the second phase, so it is passed over there;
/// with a flag set it waits in the third. A seed draws other orders.
pub fn moves_of_two()
    ensures rounds { round_moves (voter_row (false ∷ false ∷ [])) 2 10 ≡ 0 ∷ 1 ∷ 0 ∷ 1 ∷ 0 ∷ 1 ∷ 1 ∷ 0 ∷ 1 ∷ 0 ∷ [] }
    ensures rounds_set { round_moves (voter_row (true ∷ false ∷ [])) 2 16 ≡
        0 ∷ 1 ∷ 0 ∷ 1 ∷ 0 ∷ 1 ∷ 0 ∷ 1 ∷ 0 ∷ 1 ∷ 0 ∷ 1 ∷ 1 ∷ 0 ∷ 1 ∷ 0 ∷ [] }
    ensures drawn { drawn_moves (voter_row (false ∷ false ∷ [])) 2 7 10 ≡ 0 ∷ 1 ∷ 1 ∷ 1 ∷ 1 ∷ 1 ∷ 0 ∷ 0 ∷ 0 ∷ 0 ∷ [] }
{}
