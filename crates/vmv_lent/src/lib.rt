//! Programs and snapshots may be lent and sent to threads.
//!
//! There is no code here. `proofs/` has the laws that a call asks for where it lends a snapshot to threads:
//! programs have trees in them, for which they aren't found by themselves.
#![tactic(auto)]
