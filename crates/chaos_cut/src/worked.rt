//! Worked bisections. Each function's contract is what the definitions compute for one of them.
ghost use Rattle.std.specs.Prelude.{◌≡◌, ◌+◌, ◌-◌, ◌^◌, [], ◌∷◌};
ghost use Rattle.chaos_cut.specs.Bisection.{cut_axis, cut_size, levels_of, map_of, whole};
ghost use Rattle.chaos_cut.specs.Keys.{candidate_in, found_in, keys_below};
ghost use Rattle.chaos_cut.specs.Worked.{axis_of, line, lowest, most, point, rectangle, space, square, wide};

/// Eight elements on a line in four parts: elements 2, 6, 4 and, of the four at 5, the first go to the first
/// two. So the first cut finds the key of element 1, whose coordinate is 5.
pub fn line_in_four()
    ensures map { map_of line 4 8 ≡ 1 ∷ 0 ∷ 2 ∷ 1 ∷ 3 ∷ 0 ∷ 2 ∷ 3 ∷ [] }
    ensures size { cut_size (whole 4 8) ≡ 4 }
    ensures found { found_in line (whole 4 8) 84 ≡ 9671406556917033402892288 }
    ensures kept { candidate_in line (whole 4 8) 0 ≡ 2 ^ 83 }
    ensures tried { candidate_in line (whole 4 8) 1 ≡ 2 ^ 83 + 2 ^ 82 }
    ensures below { keys_below (cut_axis line (whole 4 8)) (whole 4 8).elements (2 ^ 83 + 2 ^ 82) ≡ 8 }
{}

/// The second axis has the greater spread, and part 0 gets one element of five.
pub fn rectangle_in_three()
    ensures { map_of rectangle 3 5 ≡ 0 ∷ 1 ∷ 0 ∷ 2 ∷ 1 ∷ [] }
{}

/// One part is cut at no level.
pub fn one_part()
    ensures map { map_of (axis_of (3 ∷ 1 ∷ 2 ∷ []) ∷ []) 1 3 ≡ 0 ∷ 0 ∷ 0 ∷ [] }
    ensures levels { levels_of 1 ≡ 0 }
{}

/// Numbers below 0 come first; a spread may be over 64 bits.
pub fn signed_coordinates()
    ensures two { map_of ((most ∷ lowest ∷ []) ∷ []) 2 2 ≡ 1 ∷ 0 ∷ [] }
    ensures wide { map_of wide 2 4 ≡ 1 ∷ 0 ∷ 1 ∷ 0 ∷ [] }
{}

/// On a tie the first axis is taken, and the elements' numbers decide.
pub fn ties()
    ensures point { map_of point 2 4 ≡ 0 ∷ 0 ∷ 1 ∷ 1 ∷ [] }
    ensures square { map_of square 4 4 ≡ 0 ∷ 2 ∷ 1 ∷ 3 ∷ [] }
{}

/// The first parts have one element more.
pub fn seven_in_five()
    ensures { map_of (axis_of (7 ∷ 6 ∷ 5 ∷ 4 ∷ 3 ∷ 2 ∷ 1 ∷ []) ∷ []) 5 7 ≡ 4 ∷ 3 ∷ 2 ∷ 1 ∷ 1 ∷ 0 ∷ 0 ∷ [] }
{}

/// Each region has an axis of its own, and three parts need two levels.
pub fn space_in_three()
    ensures map { map_of space 3 8 ≡ 1 ∷ 1 ∷ 2 ∷ 2 ∷ 0 ∷ 0 ∷ 0 ∷ 1 ∷ [] }
    ensures levels { levels_of 3 ≡ 2 }
    ensures most { levels_of 64 ≡ 6 }
{}
