//! Laws of the surface language: a surface program does what the program does that it is lowered to.
#![tactic(auto)]

mod laws;

pub use laws::lowering_keeps_runs;
