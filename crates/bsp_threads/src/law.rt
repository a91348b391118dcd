//! What the prefix law says of a run of all nodes, and of its letters.
ghost use Rattle.std.specs.Prelude.{◌≡◌, ℕ, List, map};
ghost use Rattle.bsp_core.specs.Views.{View, WorksFor};
ghost use Rattle.bsp_core.specs.Turns.{Begins};
ghost use Rattle.bsp_mail.specs.declared.seat.MailSeat.{MailSeat};
ghost use Rattle.bsp_mail.specs.Mails.{ArePrefixes};
ghost use Rattle.chaos_letter.specs.declared.letter.Letter.{Letter};
ghost use Rattle.bsp_threads.specs.declared.seat.Standing.{Standing};
ghost use Rattle.bsp_threads.specs.Alls.{AreAtEnd, AreEmptyFrom, AreNumbered, AreOfPlan, HaveRun, IsLawfulRun};
ghost use Rattle.bsp_threads.specs.Due.{AreCut, AreDue, HasLetters};

use bsp_core::{Phased, driven_law, whole_law};

/// Nodes that were driven each by itself from a plan's start on, with letters that came by a Mail: no
/// letter strayed, what was sent is a prefix of the plan's letters, and where all seats are finished,
/// all is the plan's.
pub fn run_law<N: Phased>()
    ensures { (plan : N.Plan) → N.IsPlan plan → (old new : List N) (mails : List MailSeat) (together : Standing) →
        Begins (N.rows plan) (N.holds plan) (N.count plan) (map N.view old) →
        HaveRun N.view (WorksFor N.IsPlan N.count N.rows N.holds) old new mails together →
        IsLawfulRun N.view (N.rows plan) (N.holds plan) (N.count plan) new mails together }
{
    driven_law::<N>();
    whole_law::<N>();
}

/// Nodes that begin a plan are numbered from 0, and there are sixteen at most.
pub fn start_law<N: Phased>()
    ensures { (plan : N.Plan) → N.IsPlan plan → (nodes : List N) →
        Begins (N.rows plan) (N.holds plan) (N.count plan) (map N.view nodes) → AreNumbered N.view nodes }
{}

/// Where a plan has these letters up to its end, nodes at the plan's end have sent and taken them all, and
/// what was sent of the plan is of them.
pub fn due_law<N: Phased>()
    ensures due { (plan : N.Plan) → N.IsPlan plan → (due : ℕ → ℕ → List Letter) → HasLetters (N.rows plan) (N.count plan) due →
        (views : List (View N.State)) (mails : List MailSeat) → AreAtEnd (N.rows plan) (N.holds plan) (N.count plan) views mails →
        AreEmptyFrom (N.count plan) mails → AreDue (N.count plan) due mails }
    ensures cut { (plan : N.Plan) → N.IsPlan plan → (due : ℕ → ℕ → List Letter) → HasLetters (N.rows plan) (N.count plan) due →
        (mails : List MailSeat) → AreOfPlan (N.rows plan) (N.count plan) mails → ArePrefixes mails →
        AreEmptyFrom (N.count plan) mails → AreCut (N.count plan) due mails }
{
    whole_law::<N>();
}
