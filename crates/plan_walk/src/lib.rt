//! Where a node is in its run: the laws that tie the steps before, the present step and its stages that
//! are left to the phases of the run that are left, also of a run that is refused; and the letters of a
//! phase by what they name.
#![tactic(auto)]

mod laws;
mod stages;
mod taken;

pub use laws::{
    lengths_are_known, letters_are_sent, letters_come_in, outputs_are_walked, outputs_follow,
    own_list_is_put_in, phases_are_counted, phases_begin, quiet_steps_pass, rows_follow,
    run_starts, stages_are_walked, steps_are_known, steps_are_walked, steps_end, vote_stops,
};
pub use stages::{Naming, sends, takes};
pub use taken::taken_lists;
