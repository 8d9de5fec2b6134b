/// The first failure of a table's walk.
#[derive(Clone, Copy, PartialEq, Eq, Debug, Drop)]
pub struct Refused {
    /// The row, from 1.
    pub row: u32,
    /// The step: 0 for the form of the row, then the statements of its procedure from 1 in text order, and behind them the
    /// return.
    pub step: u32,
}
