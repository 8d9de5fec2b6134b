use vmv_demands::Demand;
use vmv_snapshot::ParamBox;

/// Which of the words that there are a probe takes.
#[derive(Clone, Copy, PartialEq, Eq, Debug, Drop)]
pub enum Mode {
    /// The least.
    Least,
    /// The greatest.
    Greatest,
    /// The one nearest to 0, the positive one where two are as near.
    Nearest,
}

/// What an entry is tried on: the mode picks each parameter in its range and what each outside name always answers.
#[derive(Clone, Copy)]
pub struct Probe {
    /// The ranges of the parameters.
    pub within: ParamBox,
    /// How words are picked.
    pub mode: Mode,
    /// The demand that is missed: its name answers the word nearest to 0 that doesn't meet it.
    pub missed: Option<Demand>,
}
