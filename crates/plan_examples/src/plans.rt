//! Plans that can be met.
ghost use Rattle.plan_run.specs.Rows.{IsRunPlan};
ghost use Rattle.plan_examples.specs.Plans.{scattering_plan};

/// A sum through an index array, on two nodes.
pub fn scattering_is_a_plan()
    ensures { IsRunPlan scattering_plan }
{}
