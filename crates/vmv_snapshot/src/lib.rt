//! Snapshots: immutable valid programs, with their procedures resolved.
//!
//! In a resolved procedure each variable is a numbered slot, each call of a helper names the callee by its number, and
//! each site has its number.
#![tactic(auto)]

mod code;
mod fault;
mod param_box;
mod reach;
mod resolve;
mod resolver;
mod slots;
mod snapshot;
mod tables;

pub use code::{
    Code, CodeArgs, CodeBlock, CodeOperand, CodeRepeat, CodeStmt, CodeTest, OutsideId, ProcId,
    Simple, SiteId, Slot,
};
pub use fault::NewFault;
pub use param_box::ParamBox;
pub use snapshot::Snapshot;
