use sqlite_items::Items;
use vmv_back::Boxes;
use vmv_demands::Demands;
use vmv_snapshot::ProcId;
use vmv_tree::Ends;

/// An entry with its boxes and its demands.
#[derive(Drop)]
pub struct Subject {
    /// The entry.
    pub entry: ProcId,
    /// Boxes of its parameters.
    pub boxes: Boxes,
    /// What its sites demand of outside names.
    pub demands: Demands,
}

/// What is looked at in a program.
#[derive(Drop)]
pub struct Scope {
    /// The ends of its outside names.
    pub ends: Ends,
    /// Its entries, in text order.
    pub subjects: Items<Subject>,
}
