use crate::{Items, Name};

/// How many items of each kind a program has. A number above 1,000,000,000 is told as 1,000,000,000.
#[derive(Clone, Copy, PartialEq, Eq, Debug, Drop)]
pub struct ItemCounts {
    /// Outside functions.
    pub outsides: u64,
    /// Helpers.
    pub helpers: u64,
    /// Entries.
    pub entries: u64,
}

/// What is told in place of its tree of a procedure whose blocks stand too deep in one another. A number above
/// 1,000,000,000 is told as 1,000,000,000.
#[derive(Clone, Copy, PartialEq, Eq, Debug, Drop)]
pub struct DeepProcedure {
    /// Its name.
    pub name: Name,
    /// Whether it is an entry, and no helper.
    pub is_entry: bool,
    /// Its variables: parameters, `var` names, and two for each loop.
    pub variables: u64,
    /// Its statements, nested ones counted.
    pub statements: u64,
    /// How deep its blocks stand in one another: more than 8.
    pub nesting: u64,
}

/// What is told of a program in which the blocks of some procedure stand more than 8 deep in one another.
#[derive(Debug, Drop)]
pub struct DeepProgram {
    /// The items above the first such procedure, in text order.
    pub above: Items,
    /// That procedure.
    pub deep: DeepProcedure,
    /// How many items of each kind the whole program has.
    pub counts: ItemCounts,
}
