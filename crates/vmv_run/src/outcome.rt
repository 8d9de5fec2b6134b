use vmv_snapshot::SiteId;

/// How a run over given answers ends.
#[derive(Clone, Copy, PartialEq, Eq, Debug, Drop)]
pub enum Outcome {
    /// The run used all answers and returned this word.
    Done(i64),
    /// The run used all answers and failed here.
    Fail(SiteId),
    /// All `at` answers were used, and a further call comes.
    Short { at: usize },
    /// Answer number `at`, from 0, doesn't carry the called name.
    Stranger { at: usize },
    /// The run ended after `used` answers, and more are left.
    Extra { used: usize },
}
