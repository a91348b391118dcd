use crate::Hand;
use chaos_letter::Letter;
use crossbeam_queue::protocol::{Join, Lesson, Outcome, Protocol, Split};

/// The rule of a line: what was sent is what was taken, then what was dropped, then what the line holds.
pub struct InTurn;

impl Protocol<Letter, Hand> for InTurn {
    ghost use Rattle.std.specs.Prelude.{true, []};
    ghost use Rattle.bsp_mail.specs.Rule.{hand, InOrder};

    ghost holds = { InOrder };

    ghost first = { hand true true [] [] [] 0 };
}

/// A push.
pub struct Puts;

impl Outcome<Letter, Hand> for Puts {
    ghost use Rattle.std.specs.Prelude.{◌≡◌};
    ghost use Rattle.bsp_mail.specs.Rule.{after_put};

    ghost then = { λ v x w. w ≡ after_put v x };
}

/// A pop that gives a letter.
pub struct Takes;

impl Outcome<Letter, Hand> for Takes {
    ghost use Rattle.std.specs.Prelude.{◌≡◌};
    ghost use Rattle.bsp_mail.specs.Rule.{after_take};

    ghost then = { λ v x w. w ≡ after_take v x };
}

impl Lesson<Letter, Hand> for Takes {
    ghost use Rattle.std.specs.Prelude.{⊤};

    ghost fact = { λ v items. ⊤ };
}

/// The count of a poll that found nothing. A pop that finds nothing leaves what its pass knows as it
/// was, so the count is a step of its own: a pass that may do nothing is split off.
pub struct Polls;

impl Split<Hand> for Polls {
    ghost use Rattle.bsp_mail.specs.Rule.{after_poll, nobody};

    ghost left = { after_poll };

    ghost right = { λ v. nobody };
}

/// The split of a new line's pass into the sender's and the receiver's.
pub struct Roles;

impl Split<Hand> for Roles {
    ghost use Rattle.bsp_mail.specs.Rule.{sender, receiver};

    ghost left = { λ v. sender };

    ghost right = { λ v. receiver };
}

/// The split of the receiver's pass where a line is settled: its lists stay, its right goes to an heir.
pub struct Retires;

impl Split<Hand> for Retires {
    ghost use Rattle.bsp_mail.specs.Rule.{retired, heir};

    ghost left = { retired };

    ghost right = { heir };
}

/// The join of the heir with the sender's pass.
pub struct Unites;

impl Join<Hand> for Unites {
    ghost use Rattle.bsp_mail.specs.Rule.{both_hands, nobody};

    ghost both = { both_hands };

    ghost spent = { nobody };
}

/// The pop by the joined pass, which knows both lists.
pub struct Drops;

impl Outcome<Letter, Hand> for Drops {
    ghost use Rattle.std.specs.Prelude.{◌≡◌};
    ghost use Rattle.bsp_mail.specs.Rule.{after_drop, IsPrefix};

    ghost then = { λ v x w. (w ≡ after_drop v x) × IsPrefix v.taken v.sent };
}

impl Lesson<Letter, Hand> for Drops {
    ghost use Rattle.bsp_mail.specs.Rule.{IsPrefix};

    ghost fact = { λ v items. IsPrefix v.taken v.sent };
}
