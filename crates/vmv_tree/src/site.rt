use crate::Name;

/// A site of a named procedure, by its number from 1 in text order. A number from outside may be any, 0 too.
#[derive(Clone, Copy, PartialEq, Eq, Debug, Drop)]
pub struct NamedSite {
    pub proc: Name,
    pub index: u32,
}
