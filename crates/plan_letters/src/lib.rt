//! What the letters that are due in a run tell: whose elements the data letters of an execution carry,
//! and which executions inspected.
#![tactic(auto)]

mod laws;

pub use laws::{
    data_is_carried, data_stands, inspection_letters_stand, loops_are_carried, others_ask_nothing,
    others_carry_nothing, votes_stand,
};
