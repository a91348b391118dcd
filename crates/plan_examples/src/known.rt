//! What is known of checked programs can be met.
ghost use Rattle.fd_program.specs.Checks.{IsChecked};
ghost use Rattle.plan_examples.specs.Programs.{scattering};

/// A sum through an index array is a checked program.
pub fn scattering_is_checked()
    ensures { IsChecked scattering }
{}
