use crate::case::Case;
use crate::sheet::Sheet;
use std::alloc::Global;

/// A program of trials, which answers what cases ask.
pub trait Trial {
    /// Writes the answer to an ask, a line without the `? ` in front of it, over the texts of its case. An ask that it
    /// doesn't know it refuses.
    fn answer(&self, alloc: Global, case: &Case, ask: &[u8], sheet: &mut Sheet);
}
