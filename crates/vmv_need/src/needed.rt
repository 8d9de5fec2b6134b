use crate::cut::Cuts;
use crate::shown::ShownBy;
use vmv_assumption::Assumption;

/// What is necessary for a program to be safe.
#[derive(Drop)]
pub enum Needed {
    /// The necessary conditions of its outside names.
    Conditions {
        /// The conditions.
        assumption: Assumption,
        /// The exclusions that led there.
        cuts: Cuts,
    },
    /// No environment is safe for the program.
    Vacuous {
        /// What shows it.
        shown_by: ShownBy,
    },
}
