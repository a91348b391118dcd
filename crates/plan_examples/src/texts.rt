//! Worked programs: the texts that the definitions compute.
ghost use Rattle.std.specs.Prelude.{◌≡◌, [], ◌∷◌, codes};
ghost use Rattle.fd_program.specs.Texts.{text_of};
ghost use Rattle.plan_examples.specs.Programs.{zeros, first, scattering, scattering_data, outside_data, printing, scattering_next};
ghost use Rattle.plan_examples.specs.Programs.{scattering_behind, greatest_data, wrapping, wrapping_data, takes_lesser, lesser_data};

/// An assignment, and a shift of what it left.
pub fn first_program()
    ensures { text_of first (zeros ∷ []) ≡ codes "X = 20 30 40 40\n" }
{}

/// A sum past the greatest value.
pub fn wrapping_sum()
    ensures { text_of wrapping wrapping_data ≡ codes "Y = -9223372036854775808\n" }
{}

/// A minimum takes the old element into account.
pub fn lesser_value()
    ensures { text_of takes_lesser lesser_data ≡ codes "Y = 5 5\n" }
{}

/// A PRINT shows its array as it is then.
pub fn printing()
    ensures { text_of printing scattering_data ≡ codes "X = 10 20 30 40\nY = 40 30 0 30\n" }
{}

/// A loop with a subscript outside its array changes nothing.
pub fn refused_loops()
    ensures outside { text_of scattering outside_data
        ≡ codes "refused: line 5, iteration 2: subscript 9 of Y is outside 1 to 4\nY = 0 0 0 0\n" }
    ensures index { text_of scattering_next scattering_data
        ≡ codes "refused: line 5, iteration 4: subscript 5 of IA is outside 1 to 4\nY = 0 0 0 0\n" }
    ensures exact { text_of scattering_behind greatest_data
        ≡ codes "refused: line 5, iteration 4: subscript 9223372036854775808 of Y is outside 1 to 4\nY = 0 0 0 0\n" }
{}
