//! The phases of a whole run, the letters that are due in each, and what each node holds as a phase
//! begins: definitions over the program, the number of nodes, the rule for homes and the values before
//! the run, and what follows from them.
#![tactic(auto)]

mod kept;
mod laws;
mod stage;

pub use kept::Kept;
pub use laws::{
    inspections_go_on, last_is_reached, left_is_small, letters_are_measured, move_changes_one,
    others_stay_prepared, owners_stay, print_keeps_loops, print_leaves_store, print_stands,
    refused_inspects, refused_run_ends, rows_fall, rows_have_due_lists, rows_have_moves, rows_meet,
    run_is_whole, start_stands, steps_go_on, steps_keep_loops, steps_stand, tables_keep_loops,
};
pub use stage::Stage;
