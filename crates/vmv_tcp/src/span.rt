//! How long a peer may let its link wait.

use std::io::{Error, ErrorKind, Result};
use std::rt::HostRuntime;
use std::time::{Duration, Instant};

// The longest that one call waits for the peer, in seconds.
const CALL: u64 = 10;

/// The time that some calls on a link may take together, from the first of them on.
#[derive(Drop)]
pub(crate) struct Span {
    whole: Duration,
    began: Option<Instant>,
}

impl Span {
    pub(crate) fn of_secs(secs: u64) -> Span {
        Span {
            whole: Duration::from_secs(secs),
            began: None,
        }
    }

    /// How long the next call may wait, at most 10 seconds. It is an error where the time is over, or the clock can't
    /// be read.
    pub(crate) fn next_wait(&mut self, clock: &HostRuntime) -> Result<Duration> {
        let now = Instant::now(clock)?;
        let began = self.began.unwrap_or(now);
        self.began = Some(began);
        match self.whole.checked_sub(now.duration_since(began)) {
            Some(left) if !left.is_zero() => Ok(left.min(Duration::from_secs(CALL))),
            _ => Err(Error::from(ErrorKind::TimedOut)),
        }
    }
}
