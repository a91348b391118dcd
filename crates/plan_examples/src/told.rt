//! What the letters of worked programs tell: which executions inspected, and which elements were carried.
ghost use Rattle.std.specs.Prelude.{◌≡◌, ◌∷◌, [], true, false, pos};
ghost use Rattle.plan_letters.specs.Carried.{carried, executions, stands};
ghost use Rattle.chaos_letter.specs.declared.kind.Kind.TheVariants as kind;
ghost use Rattle.plan_run.specs.Phases.{due_list};
ghost use Rattle.plan_examples.specs.LetterWords.{needed_places};
ghost use Rattle.plan_examples.specs.Programs.{scattering, scattering_data, outside_data, reusing, rewriting, takes_lesser, lesser_data};
ghost use Rattle.plan_examples.specs.Programs.{mapping};
ghost use Rattle.plan_examples.specs.Programs.{mapping_data};
ghost use Rattle.fd_program.specs.declared.loop_facts.HomeRule.TheVariants as rule;

/// A sum through an index array: node 0 needs element 4 of X, and it comes once.
pub fn scattering_tells()
    ensures votes { executions kind.Vote (due_list scattering 2 rule.Owner scattering_data 1 0) ≡ 0 ∷ [] }
    ensures needed { needed_places scattering 2 scattering_data 0 0 1 ≡ (pos 0, pos 4) ∷ [] }
    ensures carried { carried kind.Gather 0 (due_list scattering 2 rule.Owner scattering_data 1 0) ≡ (pos 0, pos 4) ∷ [] }
    ensures none { carried kind.Gather 0 (due_list scattering 2 rule.Owner scattering_data 0 1) ≡ [] }
{}

/// Done four times it is inspected once, and element 4 comes each time.
pub fn reusing_tells()
    ensures votes { executions kind.Vote (due_list reusing 2 rule.Owner scattering_data 0 1) ≡ 0 ∷ [] }
    ensures gathers { executions kind.Gather (due_list reusing 2 rule.Owner scattering_data 0 1) ≡ 0 ∷ 1 ∷ 2 ∷ 3 ∷ [] }
    ensures carried { carried kind.Gather 3 (due_list reusing 2 rule.Owner scattering_data 1 0) ≡ (pos 0, pos 4) ∷ [] }
{}

/// Another loop writes the index array at its third and fourth turn: both inspect then, and over its empty
/// ranges before nothing is sent.
pub fn rewriting_tells()
    ensures votes { executions kind.Vote (due_list rewriting 2 rule.Owner scattering_data 0 1) ≡ 0 ∷ 5 ∷ 6 ∷ 7 ∷ [] }
    ensures gathers { executions kind.Gather (due_list rewriting 2 rule.Owner scattering_data 0 1) ≡ 0 ∷ 2 ∷ 4 ∷ 5 ∷ 6 ∷ 7 ∷ [] }
{}

/// A refused loop inspects and carries nothing.
pub fn refused_tells()
    ensures votes { executions kind.Vote (due_list scattering 4 rule.Owner outside_data 1 0) ≡ 0 ∷ [] }
    ensures gathers { executions kind.Gather (due_list scattering 4 rule.Owner outside_data 1 0) ≡ [] }
{}

/// A contribution to the second element of Y goes to its owner.
pub fn lesser_tells()
    ensures { carried kind.Scatter 0 (due_list takes_lesser 2 rule.Owner lesser_data 0 1) ≡ (pos 0, pos 2) ∷ [] }
{}

/// A DISTRIBUTE by a map asks for places and has no vote; the loop behind it inspects.
pub fn mapping_tells()
    ensures asked { stands kind.DerefAsk 0 (due_list mapping 4 rule.Owner mapping_data 0 3) ≡ true }
    ensures unvoted { stands kind.Vote 0 (due_list mapping 4 rule.Owner mapping_data 0 3) ≡ false }
    ensures votes { executions kind.Vote (due_list mapping 4 rule.Owner mapping_data 0 3) ≡ 1 ∷ [] }
    ensures carried { carried kind.Gather 1 (due_list mapping 4 rule.Owner mapping_data 0 3) ≡ (pos 0, pos 3) ∷ [] }
{}
