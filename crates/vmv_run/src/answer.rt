use vmv_tree::Name;

/// What an outside call answered: the called name, and the word.
#[derive(Clone, Copy, PartialEq, Eq, Debug, Drop)]
pub struct Answer {
    pub name: Name,
    pub value: i64,
}

/// What the outside calls of a run answered, in order.
pub type Answers = sqlite_items::Items<Answer>;
