//! Worked programs. Each function's contract is what the definitions compute for one of them: its text and report, and on
//! several nodes how many moves it has, the letters from one node to another, and what these tell.
#![tactic(auto)]

pub mod known;
pub mod layouts;
pub mod letters;
pub mod moves;
pub mod plans;
pub mod reports;
pub mod texts;
pub mod told;
