use crate::code::Code;
use indexmap::IndexSet;
use vmv_tree::{Name, Params};

/// A procedure of a program, resolved.
#[derive(Drop)]
pub(crate) struct Proc {
    pub(crate) name: Name,
    pub(crate) entry: bool,
    pub(crate) params: Params,
    pub(crate) code: Code,
    pub(crate) sites: u32,
}

/// What is declared so far: outside names, and procedures by their numbers.
#[derive(Drop)]
pub(crate) struct Tables {
    pub(crate) outsides: IndexSet<Name>,
    /// The names of the procedures.
    pub(crate) names: IndexSet<Name>,
    pub(crate) procs: Vec<Proc>,
}
