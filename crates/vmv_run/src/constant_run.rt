use crate::answer::Answers;
use crate::outcome::Outcome;

/// A run in which each outside name always answers the same word.
#[derive(Debug, Drop)]
pub struct Constant {
    /// The answers of the run.
    pub answers: Answers,
    /// `Done` or `Fail`.
    pub outcome: Outcome,
}
