//! Worked programs on several nodes: the texts and reports that the definitions compute.
ghost use Rattle.std.specs.Prelude.{◌≡◌, codes};
ghost use Rattle.fd_program.specs.Reports.{report_of_program};
ghost use Rattle.fd_program.specs.Texts.{text_of};
ghost use Rattle.fd_program.specs.declared.loop_facts.HomeRule.TheVariants as rule;
ghost use Rattle.plan_examples.specs.Programs.{scattering, scattering_data, outside_data, reusing, rewriting, shifting, shifting_on, idle};
ghost use Rattle.plan_examples.specs.Programs.{ones_to_fours, repeating, repeating_data, mapping, never_mapped, mapping_data, moving};
ghost use Rattle.plan_examples.specs.Programs.{staying};
ghost use Rattle.plan_examples.specs.Programs.{moving_data, sweeping, sweeping_data};

/// A sum through an index array, by either rule and on several numbers of nodes.
pub fn scattering_program()
    ensures text { text_of scattering scattering_data ≡ codes "Y = 40 30 0 30\n" }
    ensures owner { report_of_program scattering 2 rule.Owner scattering_data
        ≡ codes "loop 5: executed 1, inspected 1, gathered 1, scattered 0\n" }
    ensures most { report_of_program scattering 2 rule.Most scattering_data
        ≡ codes "loop 5: executed 1, inspected 1, gathered 0, scattered 1\n" }
    ensures alone { report_of_program scattering 1 rule.Owner scattering_data
        ≡ codes "loop 5: executed 1, inspected 1, gathered 0, scattered 0\n" }
    ensures many { report_of_program scattering 16 rule.Owner scattering_data
        ≡ codes "loop 5: executed 1, inspected 1, gathered 3, scattered 0\n" }
{}

/// Where the index array is rewritten the loop is inspected again.
pub fn rewriting_program()
    ensures text { text_of rewriting scattering_data ≡ codes "Y = 170 110 0 120\n" }
    ensures report { report_of_program rewriting 2 rule.Owner scattering_data
        ≡ codes "loop 6: executed 4, inspected 2, gathered 4, scattered 0\nloop 9: executed 2, inspected 2, gathered 0, scattered 0\n" }
{}

/// Where nothing has changed the inspection is used again.
pub fn reusing_program()
    ensures text { text_of reusing scattering_data ≡ codes "Y = 160 120 0 120\n" }
    ensures report { report_of_program reusing 2 rule.Owner scattering_data
        ≡ codes "loop 6: executed 4, inspected 1, gathered 4, scattered 0\n" }
{}

/// Every read sees the array as it was before the loop.
pub fn shifting_program()
    ensures back { text_of shifting ones_to_fours ≡ codes "X = 2 3 4 4\n" }
    ensures back_report { report_of_program shifting 2 rule.Owner ones_to_fours
        ≡ codes "loop 5: executed 1, inspected 1, gathered 1, scattered 0\n" }
    ensures on { text_of shifting_on ones_to_fours ≡ codes "X = 1 1 2 3\n" }
    ensures on_report { report_of_program shifting_on 2 rule.Owner ones_to_fours
        ≡ codes "loop 5: executed 1, inspected 1, gathered 1, scattered 0\n" }
{}

/// A range that is empty.
pub fn idle_program()
    ensures text { text_of idle ones_to_fours ≡ codes "X = 1 2 3 4\n" }
    ensures report { report_of_program idle 2 rule.Owner ones_to_fours
        ≡ codes "loop 5: executed 0, inspected 0, gathered 0, scattered 0\n" }
{}

/// A refused execution is not counted.
pub fn refused_report()
    ensures { report_of_program scattering 4 rule.Owner outside_data
        ≡ codes "loop 5: executed 0, inspected 0, gathered 0, scattered 0\n" }
{}

/// An element that is read often is gathered once.
pub fn repeating_program()
    ensures text { text_of repeating repeating_data ≡ codes "Y = 5 5 5 5 5 5 5 5\n" }
    ensures report { report_of_program repeating 2 rule.Owner repeating_data
        ≡ codes "loop 5: executed 1, inspected 1, gathered 1, scattered 0\n" }
{}

/// Owners by a map, and the same loop without it.
pub fn mapping_program()
    ensures mapped { text_of mapping mapping_data ≡ codes "Y = 20 30 40 0\n" }
    ensures mapped_report { report_of_program mapping 4 rule.Owner mapping_data
        ≡ codes "loop 8: executed 1, inspected 1, gathered 2, scattered 0\n" }
    ensures unmapped { text_of never_mapped mapping_data ≡ codes "Y = 20 30 40 0\n" }
    ensures unmapped_report { report_of_program never_mapped 4 rule.Owner mapping_data
        ≡ codes "loop 7: executed 1, inspected 1, gathered 3, scattered 0\n" }
{}

/// A move there and back makes the loop inspect again, a repeat does not.
pub fn moving_program()
    ensures moved { text_of moving moving_data ≡ codes "Y = 20 30 40 0\n" }
    ensures moved_report { report_of_program moving 2 rule.Owner moving_data
        ≡ codes "loop 8: executed 2, inspected 2, gathered 2, scattered 0\n" }
    ensures stayed { text_of staying moving_data ≡ codes "Y = 20 30 40 0\n" }
    ensures stayed_report { report_of_program staying 2 rule.Owner moving_data
        ≡ codes "loop 8: executed 2, inspected 1, gathered 2, scattered 0\n" }
{}

/// Ten sweeps over the edges of a cube, on four nodes.
pub fn sweeping_program()
    ensures text { text_of sweeping sweeping_data
        ≡ codes "X = 9942776 -9824672 -9824672 9706576 -9824672 9706576 9706576 -9588480\n" }
    ensures owner { report_of_program sweeping 4 rule.Owner sweeping_data
        ≡ codes "loop 11: executed 10, inspected 1, gathered 120, scattered 120\nloop 15: executed 10, inspected 1, gathered 0, scattered 0\n" }
    ensures most { report_of_program sweeping 4 rule.Most sweeping_data
        ≡ codes "loop 11: executed 10, inspected 1, gathered 180, scattered 180\nloop 15: executed 10, inspected 1, gathered 0, scattered 0\n" }
{}
