//! Demands: the conditions on the answers of outside functions that the sites of an entry need, found by going back from
//! each site; and the ends of their ranges.
#![tactic(auto)]

mod demand;
mod kept;
mod laws;
mod lead;
mod leads;
mod lost;
mod name_ends;
mod needs;
mod shift;
mod slots;
mod source;
mod sources;
mod summary;
mod want;

pub use demand::{Demand, Demands};
pub use kept::demands;
pub use laws::{
    demands_are_determined, demands_are_few, demands_are_on_outside_names, demands_differ,
};
pub use name_ends::ends;
