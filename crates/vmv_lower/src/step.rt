use vmv_tree::{Name, Op, Rel};

/// A step of an expression, which stands behind the steps of what it takes.
#[derive(Clone, Copy, PartialEq, Eq, Debug, Drop)]
pub enum Step {
    /// A literal.
    Lit(i64),
    /// A variable.
    Var(Name),
    /// An operation on the last two.
    Operate(Op),
    /// The last, subtracted from 0.
    Negate,
    /// A call with so many arguments, the last ones.
    Ask { callee: Name, count: usize },
}

/// The steps of an expression, in order.
pub type Steps = sqlite_items::Items<Step>;

/// A step of a test, which stands behind the steps of what it takes.
#[derive(Debug, Drop)]
pub enum TestStep {
    /// A comparison of two expressions, by the steps of each.
    Compare { left: Steps, rel: Rel, right: Steps },
    /// The last doesn't hold.
    Not,
    /// Both of the last two hold.
    And,
    /// One of the last two holds.
    Or,
}

/// The steps of a test, in order.
pub type TestSteps = sqlite_items::Items<TestStep>;
