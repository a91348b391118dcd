//! The letters from one node to another in worked programs.
ghost use Rattle.std.specs.Prelude.{◌≡◌, [], ◌∷◌};
ghost use Rattle.chaos_letter.specs.declared.kind.Kind.TheVariants as kind;
ghost use Rattle.plan_run.specs.Phases.{due_list};
ghost use Rattle.plan_examples.specs.LetterWords.{bare, letter, empty};
ghost use Rattle.plan_examples.specs.Programs.{zeros, scattering, scattering_data, outside_data, shifting, ones_to_fours, mapping};
ghost use Rattle.plan_examples.specs.Programs.{mapping_data};
ghost use Rattle.fd_program.specs.declared.loop_facts.HomeRule.TheVariants as rule;

/// A sum through an index array: iteration 4 goes to node 0, which then asks for element 4.
pub fn scattering_letters()
    ensures out { due_list scattering 2 rule.Owner scattering_data 0 1
        ≡ empty kind.IndexAsk 0 0 ∷ empty kind.IndexValues 0 0 ∷ empty kind.Vote 0 0 ∷ empty kind.Iterations 0 0
        ∷ letter kind.ScheduleAsk 0 0 (0 ∷ 0 ∷ 4 ∷ 1 ∷ []) ∷ empty kind.Gather 0 0 ∷ empty kind.Scatter 0 0 ∷ [] }
    ensures back { due_list scattering 2 rule.Owner scattering_data 1 0
        ≡ empty kind.IndexAsk 0 0 ∷ empty kind.IndexValues 0 0 ∷ empty kind.Vote 0 0 ∷ letter kind.Iterations 0 0 (4 ∷ 1 ∷ [])
        ∷ empty kind.ScheduleAsk 0 0 ∷ letter kind.Gather 0 0 (0 ∷ 4 ∷ 40 ∷ []) ∷ empty kind.Scatter 0 0
        ∷ letter kind.Print 1 1 (3 ∷ 0 ∷ 4 ∷ 30 ∷ []) ∷ [] }
{}

/// The loop is refused: nothing follows the vote but the array that is written.
pub fn refused_letters()
    ensures { due_list scattering 4 rule.Owner outside_data 1 0
        ≡ empty kind.IndexAsk 0 0 ∷ empty kind.IndexValues 0 0 ∷ letter kind.Vote 0 0 (2 ∷ 2 ∷ 0 ∷ 9 ∷ [])
        ∷ letter kind.Print 1 1 (2 ∷ 0 ∷ []) ∷ [] }
{}

/// A shift: the value of element 3 before the loop.
pub fn shifting_letters()
    ensures out { due_list shifting 2 rule.Owner ones_to_fours 0 1
        ≡ empty kind.Vote 0 0 ∷ empty kind.Iterations 0 0 ∷ letter kind.ScheduleAsk 0 0 (0 ∷ 0 ∷ 3 ∷ 0 ∷ [])
        ∷ empty kind.Gather 0 0 ∷ empty kind.Scatter 0 0 ∷ [] }
    ensures back { due_list shifting 2 rule.Owner ones_to_fours 1 0
        ≡ empty kind.Vote 0 0 ∷ empty kind.Iterations 0 0 ∷ empty kind.ScheduleAsk 0 0 ∷ letter kind.Gather 0 0 (0 ∷ 3 ∷ 3 ∷ [])
        ∷ empty kind.Scatter 0 0 ∷ letter kind.Print 1 0 (3 ∷ 4 ∷ 4 ∷ 4 ∷ []) ∷ [] }
{}

/// Owners by a map, which moves elements first; then places are asked for, of homes and of references.
pub fn mapping_letters()
    ensures out { due_list mapping 4 rule.Owner mapping_data 0 3
        ≡ empty kind.MapPairs 0 0 ∷ letter kind.PageCounts 0 0 (0 ∷ 0 ∷ 0 ∷ 1 ∷ []) ∷ empty kind.DerefAsk 0 0 ∷ empty kind.DerefAnswer 0 0
        ∷ letter kind.Remap 0 0 (1 ∷ 10 ∷ 0 ∷ []) ∷ empty kind.Vote 1 0 ∷ empty kind.DerefAsk 1 0 ∷ empty kind.DerefAnswer 1 0
        ∷ letter kind.Iterations 1 0 (1 ∷ []) ∷ letter kind.DerefAsk 1 0 (0 ∷ 4 ∷ []) ∷ letter kind.DerefAnswer 1 0 (3 ∷ 0 ∷ [])
        ∷ empty kind.ScheduleAsk 1 0 ∷ letter kind.Gather 1 0 (0 ∷ 3 ∷ 30 ∷ []) ∷ empty kind.Scatter 1 0 ∷ [] }
    ensures back { due_list mapping 4 rule.Owner mapping_data 3 0
        ≡ empty kind.MapPairs 0 0 ∷ letter kind.PageCounts 0 0 (0 ∷ 0 ∷ 1 ∷ 0 ∷ []) ∷ empty kind.DerefAsk 0 0 ∷ empty kind.DerefAnswer 0 0
        ∷ empty kind.Remap 0 0 ∷ empty kind.Vote 1 0 ∷ empty kind.DerefAsk 1 0 ∷ empty kind.DerefAnswer 1 0
        ∷ empty kind.Iterations 1 0 ∷ letter kind.DerefAsk 1 0 (0 ∷ 1 ∷ []) ∷ letter kind.DerefAnswer 1 0 (2 ∷ 0 ∷ [])
        ∷ letter kind.ScheduleAsk 1 0 (0 ∷ 0 ∷ 3 ∷ 0 ∷ []) ∷ empty kind.Gather 1 0 ∷ empty kind.Scatter 1 0
        ∷ letter kind.Print 2 1 (1 ∷ 20 ∷ 2 ∷ 30 ∷ []) ∷ [] }
{}

/// Nothing but an array that is written after the run: node 2 has none of its elements, and node 0 sends no letter.
pub fn bare_letters()
    ensures one { due_list bare 3 rule.Owner (zeros ∷ []) 1 0 ≡ letter kind.Print 0 0 (3 ∷ 0 ∷ 4 ∷ 0 ∷ []) ∷ [] }
    ensures two { due_list bare 3 rule.Owner (zeros ∷ []) 2 0 ≡ empty kind.Print 0 0 ∷ [] }
    ensures none { due_list bare 3 rule.Owner (zeros ∷ []) 0 1 ≡ [] }
{}
