//! Laws of the definitions. Each function does nothing; its contract is the law.
ghost use Rattle.plan_limits.specs.Unrolled.{UnrolledIsWithin};

/// A checked program whose trace has no fault keeps to the limits of a run.
pub fn unrolled_is_within()
    ensures { UnrolledIsWithin }
{}
