//! Laws of accepted tables: what they tell of the runs of a program is true.
//!
//! So a dead entry doesn't return, a provable site doesn't fail, and a safe environment avoids the pieces that make an
//! entry dead.
#![tactic(auto)]

mod laws;

pub use laws::{
    accepted_tables_are_sound, dead_bases_have_no_safe_environment, dead_entries_dont_return,
    dead_pieces_are_avoided, failing_sites_are_reached, provable_sites_dont_fail,
    proved_programs_are_safe, sites_left_out_dont_fail, tables_avoid_pieces,
};
