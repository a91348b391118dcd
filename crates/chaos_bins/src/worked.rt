//! Worked moves of particles. Each function's contract is what the definitions compute for one of them.
ghost use Rattle.std.specs.Prelude.{◌≡◌, ◌++◌, pos, negsuc, [], ◌∷◌, codes};
ghost use Rattle.bsp_desk.specs.Uniform.{letters_of};
ghost use Rattle.chaos_bins.specs.Bins.{lines_of, moving};
ghost use Rattle.chaos_bins.specs.Moving.{rows, standing};
ghost use Rattle.chaos_bins.specs.Plan.{append_letter, phases_of, print_letter, round_at, sizes_letter};
ghost use Rattle.chaos_bins.specs.Worked.{bins_after, equals, far, five_in_bins, five_plan, lowest, minus_one, mixed, most, particles_of};

/// Five particles in three bins, after one step and before it.
pub fn five_particles()
    ensures one { bins_after 3 1 five_in_bins ≡ (pos 5 ∷ []) ∷ (pos 5 ∷ []) ∷ (minus_one ∷ pos 0 ∷ pos 5 ∷ []) ∷ [] }
    ensures none { bins_after 3 0 five_in_bins ≡ (minus_one ∷ pos 5 ∷ []) ∷ (pos 5 ∷ []) ∷ (pos 0 ∷ pos 5 ∷ []) ∷ [] }
    ensures lines { lines_of 3 1 five_in_bins
        ≡ codes "bin 1: 5" ++ 10 ∷ codes "bin 2: 5" ++ 10 ∷ codes "bin 3: -1" ++ codes " 0 5" ++ 10 ∷ [] }
{}

/// The same on two nodes: each stands on its bin's owner from the beginning on, and three change it in the step.
pub fn five_on_two_nodes()
    ensures stay { rows 3 2 five_in_bins 0 0 1 ≡ [] }
    ensures out { rows 3 2 five_in_bins 1 0 1 ≡ (pos 3, pos 5) ∷ (pos 3, minus_one) ∷ [] }
    ensures back { rows 3 2 five_in_bins 1 1 0 ≡ (pos 2, pos 5) ∷ [] }
    ensures moving { moving 3 2 five_in_bins 1 0 1 ≡ (pos 3, pos 5) ∷ (pos 3, minus_one) ∷ [] }
    ensures after { standing 3 2 five_in_bins 2
        ≡ ((pos 1, pos 5) ∷ (pos 2, pos 5) ∷ []) ∷ ((pos 3, pos 5) ∷ (pos 3, minus_one) ∷ (pos 3, pos 0) ∷ []) ∷ [] }
{}

/// What the two tell each other: in round 0 nothing moves, in round 1 two pairs go one way and one the other, and
/// then node 1 tells node 0 what it has, by bin and value.
pub fn five_letters()
    ensures out { letters_of (phases_of five_plan) (round_at five_plan) 0 1
        ≡ sizes_letter 0 [] ∷ append_letter 0 []
        ∷ sizes_letter 1 ((pos 3, pos 5) ∷ (pos 3, minus_one) ∷ []) ∷ append_letter 1 ((pos 3, pos 5) ∷ (pos 3, minus_one) ∷ []) ∷ [] }
    ensures back { letters_of (phases_of five_plan) (round_at five_plan) 1 0
        ≡ sizes_letter 0 [] ∷ append_letter 0 [] ∷ sizes_letter 1 ((pos 2, pos 5) ∷ []) ∷ append_letter 1 ((pos 2, pos 5) ∷ [])
        ∷ print_letter 1 ((pos 3, minus_one) ∷ (pos 3, pos 0) ∷ (pos 3, pos 5) ∷ []) ∷ [] }
{}

/// A bin that nothing comes to has a line without values.
pub fn empty_bin()
    ensures bins { bins_after 2 0 (particles_of (2 ∷ []) (pos 9 ∷ [])) ≡ [] ∷ (pos 9 ∷ []) ∷ [] }
    ensures lines { lines_of 2 0 (particles_of (2 ∷ []) (pos 9 ∷ [])) ≡ codes "bin 1:" ++ 10 ∷ codes "bin 2: 9" ++ 10 ∷ [] }
{}

/// A thousand steps of the greatest and the least values: sums over 64 bits, and a remainder that is never negative.
pub fn far_moves()
    ensures { bins_after 3 1000 far ≡ (pos 0 ∷ []) ∷ (minus_one ∷ most ∷ []) ∷ (lowest ∷ []) ∷ [] }
{}

/// Equal particles all count.
pub fn equal_particles()
    ensures { bins_after 4 3 equals
        ≡ [] ∷ (negsuc 1 ∷ negsuc 1 ∷ []) ∷ (pos 2 ∷ pos 2 ∷ pos 2 ∷ []) ∷ (pos 2 ∷ []) ∷ [] }
{}

/// One step more or less would lead elsewhere.
pub fn two_steps()
    ensures { bins_after 3 2 (particles_of (3 ∷ 3 ∷ 3 ∷ 3 ∷ []) (pos 10 ∷ pos 9 ∷ negsuc 9 ∷ negsuc 8 ∷ []))
        ≡ (negsuc 9 ∷ []) ∷ (pos 10 ∷ []) ∷ (negsuc 8 ∷ pos 9 ∷ []) ∷ [] }
{}

/// Values ascend as signed numbers.
pub fn signed_values()
    ensures { bins_after 2 1 (particles_of (1 ∷ 2 ∷ 2 ∷ []) (lowest ∷ lowest ∷ most ∷ []))
        ≡ (lowest ∷ most ∷ []) ∷ (lowest ∷ []) ∷ [] }
{}

/// Nine particles in seven bins, of which three stay empty.
pub fn nine_particles()
    ensures { bins_after 7 6 mixed
        ≡ (pos 3 ∷ []) ∷ (negsuc 2 ∷ pos 3 ∷ pos 13 ∷ []) ∷ (negsuc 7 ∷ []) ∷ [] ∷ [] ∷ [] ∷ (pos 0 ∷ pos 1 ∷ pos 1 ∷ pos 3 ∷ []) ∷ [] }
{}

/// One bin has all values.
pub fn one_bin()
    ensures { bins_after 1 5 (particles_of (1 ∷ 1 ∷ 1 ∷ []) (pos 3 ∷ negsuc 2 ∷ pos 3 ∷ [])) ≡ (negsuc 2 ∷ pos 3 ∷ pos 3 ∷ []) ∷ [] }
{}
