/// What a review finds of a row.
#[derive(Clone, Copy, PartialEq, Eq, Debug, Drop)]
pub enum Class {
    /// The entry doesn't fail there, whatever the outside names answer.
    Clean,
    /// The entry doesn't fail there, where the answers meet what is necessary for the base.
    Hidden,
    /// A run with answers for which the base is safe fails there.
    Regression,
    /// None of these is shown.
    Alarm,
}
