//! Letters between sixteen seats, by one ruled queue for each ordered pair of them.
#![tactic(auto)]

mod end;
mod hand;
mod line;
mod mail;
mod queues;
mod rule;
mod seat;

pub use end::End;
pub use hand::Hand;
pub use line::{Line, Pass};
pub use mail::Mail;
pub use queues::{Queue, Queues};
pub use rule::InTurn;
pub use seat::MailSeat;
