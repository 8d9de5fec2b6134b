ghost use Rattle.std.specs.Prelude.{◌≡◌, None};

use crate::faults::Faults;
use crate::sink::{Failed, Sink};
use std::io::{ErrorKind, Write};

// How often a write that was interrupted is tried.
const TRIES: u32 = 16;

/// A writer of std as a sink, as standard output. What it has taken isn't told.
#[derive(Debug, Drop)]
pub struct StreamSink<W> {
    writer: W,
    faults: Faults,
}

impl<W: Write> StreamSink<W> {
    /// A sink that hands on to the writer.
    pub fn new(writer: W) -> StreamSink<W>
        ensures { ⟦<StreamSink<W> as Sink>⟧.fault_count result ≡ 0 }
    {
        StreamSink {
            writer,
            faults: Faults::none(),
        }
    }
}

impl<W: Write> Sink for StreamSink<W> {
    ghost taken = { λ _. None };

    ghost fault_count = { λ sink. sink.faults.count };

    /// Tries a write that was interrupted up to 16 times, and then counts it as a fault.
    fn write(&mut self, piece: &[u8]) -> Result<usize, Failed> {
        for _ in 0..TRIES {
            match self.writer.write(piece) {
                Ok(0) if !piece.is_empty() => {
                    self.faults.rise();
                    return Ok(0);
                }
                Ok(n) => return Ok(n),
                Err(error) if error.kind() == ErrorKind::Interrupted => {}
                Err(_) => {
                    self.faults.rise();
                    return Err(Failed);
                }
            }
        }
        self.faults.rise();
        Err(Failed)
    }

    fn faults(&self) -> u64 {
        self.faults.count()
    }
}
