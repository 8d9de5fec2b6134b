/// A test of two words, the left one first.
#[derive(Clone, Copy, PartialEq, Eq, Debug)]
pub enum ZoneRel {
    /// `left == right`
    Equal,
    /// `left != right`
    Unequal,
    /// `left < right`
    Less,
    /// `left <= right`
    AtMost,
    /// `left > right`
    Greater,
    /// `left >= right`
    AtLeast,
}
