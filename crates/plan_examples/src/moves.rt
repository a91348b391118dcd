//! The numbers of moves of worked programs: two for each letter, and one for each work.
ghost use Rattle.std.specs.Prelude.{◌≡◌, [], ◌∷◌};
ghost use Rattle.plan_run.specs.Phases.{run_moves};
ghost use Rattle.plan_examples.specs.LetterWords.{bare};
ghost use Rattle.plan_examples.specs.Programs.{zeros, scattering, scattering_data, outside_data, printing, reusing, shifting, idle};
ghost use Rattle.plan_examples.specs.Programs.{ones_to_fours, mapping, mapping_data, moving, moving_data};
ghost use Rattle.fd_program.specs.declared.loop_facts.HomeRule.TheVariants as rule;

/// A sum through an index array, on two nodes and on one.
pub fn scattering_moves()
    ensures two { run_moves scattering 2 rule.Owner scattering_data ≡ 46 }
    ensures alone { run_moves scattering 1 rule.Owner scattering_data ≡ 8 }
{}

/// Without index arrays no values are fetched; over an empty range nothing is done.
pub fn shifting_moves()
    ensures shifting { run_moves shifting 2 rule.Owner ones_to_fours ≡ 34 }
    ensures idle { run_moves idle 2 rule.Owner ones_to_fours ≡ 4 }
{}

/// A PRINT before it is one phase more, with a letter to node 0.
pub fn printing_moves()
    ensures { run_moves printing 2 rule.Owner scattering_data ≡ 50 }
{}

/// Where it is refused its vote is its last phase.
pub fn refused_moves()
    ensures { run_moves scattering 4 rule.Owner outside_data ≡ 94 }
{}

/// Done four times it is inspected once.
pub fn reusing_moves()
    ensures { run_moves reusing 2 rule.Owner scattering_data ≡ 82 }
{}

/// Owners by a map are asked for.
pub fn mapping_moves()
    ensures { run_moves mapping 4 rule.Owner mapping_data ≡ 402 }
{}

/// A decomposition that is moved, and moved back.
pub fn moving_moves()
    ensures { run_moves moving 2 rule.Owner moving_data ≡ 88 }
{}

/// Nothing but an array that is written after the run.
pub fn bare_moves()
    ensures { run_moves bare 3 rule.Owner (zeros ∷ []) ≡ 7 }
{}
