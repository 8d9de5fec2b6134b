use vmv_run::Answers;
use vmv_tree::{Name, NamedSite};

/// A parameter of an entry, and the word that it is given.
#[derive(Clone, Copy, PartialEq, Eq, Debug, Drop)]
pub struct ParamValue {
    pub name: Name,
    pub value: i64,
}

/// A word for each parameter, in order.
pub type Values = sqlite_items::Items<ParamValue>;

/// A run that is to fail: the entry with the words of its parameters, what the outside calls answered in order, and
/// the site at which the run fails.
#[derive(Debug, Drop)]
pub struct Witness {
    pub entry: Name,
    pub params: Values,
    pub answers: Answers,
    pub site: NamedSite,
}
