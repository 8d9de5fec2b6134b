/// Why a link was cut off before its answer was written.
#[derive(Clone, Copy, PartialEq, Eq, Debug, Drop)]
pub enum LinkEnd {
    /// The input ended before the request did.
    Ended,
    /// A read failed, which the link has counted.
    ReadFailed,
    /// A write failed, which the link has counted.
    WriteFailed,
}

/// How a link was served.
#[derive(Clone, Copy, PartialEq, Eq, Debug, Drop)]
pub enum Served {
    /// The whole answer was written, with this status.
    Answered { status: u16 },
    /// No whole answer was written.
    CutOff { why: LinkEnd },
    /// There was no memory to read the request or to make the answer, and nothing was written.
    Memory,
}
