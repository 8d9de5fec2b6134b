//! What lowering a surface program takes: the names of temporaries, and the statements that compute an expression.
#![tactic(auto)]

mod expression;
mod machine;
mod names;
mod step;

pub use expression::{LoweredExpr, assigned, lowered};
pub use names::temporary;
pub use step::{Step, Steps, TestStep, TestSteps};
