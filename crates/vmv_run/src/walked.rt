use vmv_snapshot::SiteId;

/// How a walk over statements goes on.
#[derive(Clone, Copy, Debug, Drop)]
pub(crate) enum Walked {
    /// With what is behind them.
    Next,
    /// They failed here.
    Fail(SiteId),
    /// A call of an outside name has no answer.
    Stopped,
}

/// How a walk over a procedure ends.
#[derive(Clone, Copy, Debug, Drop)]
pub(crate) enum Ended {
    /// It returned this word.
    Done(i64),
    /// It failed here.
    Fail(SiteId),
    /// A call of an outside name has no answer.
    Stopped,
}
