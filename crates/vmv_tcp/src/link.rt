//! A connection over TCP as a link.

ghost use Rattle.std.specs.Prelude.{◌≡◌, ◌≤◌, None};
ghost use Rattle.std.specs.Io.{ReadsAtMost, WritesAtMost};
ghost use Rattle.vmv_edge.specs.Outside.{Rose};

use crate::span::Span;
use std::io;
use std::io::{ErrorKind, Read, Write};
use std::net::{Shutdown, TcpStream};
use std::rt::HostRuntime;
use vmv_edge::{Failed, Link};

// How often a call that was interrupted is tried.
const TRIES: u32 = 16;

// How long all reads of a link may take, all its writes, and what is read behind its end, in seconds.
const READING: u64 = 30;

const WRITING: u64 = 30;

const ENDING: u64 = 2;

// How many reads, each of at most so many bytes, are made behind a link's end.
const LAST_READS: u32 = 256;

const LAST_READ: usize = 4096;

/// A connection over TCP. What it gives and takes isn't told.
///
/// A call that waits for the peer for more than 10 seconds is a fault of this link, and so is each read from 30 seconds
/// behind the first read on, and each write from 30 seconds behind the first write on.
#[derive(Drop)]
pub struct TcpLink<'r> {
    rt: &'r HostRuntime,
    stream: TcpStream,
    reading: Span,
    writing: Span,
    faults: u64,
}

impl<'r> TcpLink<'r> {
    /// A link over a connection. No call of it has failed.
    pub fn new(rt: &'r HostRuntime, stream: TcpStream) -> TcpLink<'r>
        ensures { ⟦<TcpLink<'r> as Link>⟧.fault_count result ≡ 0 }
    {
        TcpLink {
            rt,
            stream,
            reading: Span::of_secs(READING),
            writing: Span::of_secs(WRITING),
            faults: 0,
        }
    }

    // Counts one more fault, where the type has a greater number.
    fn fail(&mut self) -> Failed
        ensures counted { Rose self.old.faults self.new.faults }
        ensures later { self.old.faults ≤ self.new.faults }
    {
        self.faults = self.faults.saturating_add(1);
        Failed
    }

    // Reads once.
    fn receive(&mut self, into: &mut [u8]) -> io::Result<usize>
        ensures within { ReadsAtMost result into.new }
        ensures kept { self.new.faults ≡ self.old.faults }
    {
        let wait = self.reading.next_wait(self.rt)?;
        self.stream.set_read_timeout(Some(wait))?;
        self.stream.read(into)
    }

    // Writes once.
    fn send(&mut self, piece: &[u8]) -> io::Result<usize>
        ensures within { WritesAtMost result piece.now }
        ensures kept { self.new.faults ≡ self.old.faults }
    {
        let wait = self.writing.next_wait(self.rt)?;
        self.stream.set_write_timeout(Some(wait))?;
        self.stream.write(piece)
    }

    /// Ends what is written to the peer, and then the connection. What still comes is read first, for at most 2 seconds
    /// and at most 1,048,576 bytes, since an answer may be lost where a connection is closed before the peer's bytes
    /// were read.
    pub(crate) fn end(self) {
        let TcpLink { rt, mut stream, .. } = self;
        if stream.shutdown(Shutdown::Write).is_ok() {
            read_to_end(rt, &mut stream);
        }
    }
}

// Reads what still comes, and drops it.
fn read_to_end(rt: &HostRuntime, stream: &mut TcpStream) {
    let mut ending = Span::of_secs(ENDING);
    for _ in 0..LAST_READS {
        if !matches!(read_on(rt, stream, &mut ending), Ok(1..)) {
            return;
        }
    }
}

// Reads once, and drops what was read.
fn read_on(rt: &HostRuntime, stream: &mut TcpStream, ending: &mut Span) -> io::Result<usize> {
    let mut into = [0; LAST_READ];
    let wait = ending.next_wait(rt)?;
    stream.set_read_timeout(Some(wait))?;
    stream.read(&mut into)
}

impl<'r> Link for TcpLink<'r> {
    ghost input = { λ _. None };

    ghost written = { λ _. None };

    ghost fault_count = { λ link. link.faults };

    /// Tries a read that was interrupted up to 16 times, and then counts it as a fault.
    fn read(&mut self, into: &mut [u8]) -> Result<usize, Failed> {
        for _ in 0..TRIES {
            match self.receive(into) {
                Ok(n) => return Ok(n),
                Err(error) if error.kind() == ErrorKind::Interrupted => {}
                Err(_) => return Err(self.fail()),
            }
        }
        Err(self.fail())
    }

    /// Tries a write that was interrupted up to 16 times, and then counts it as a fault.
    fn write(&mut self, piece: &[u8]) -> Result<usize, Failed> {
        for _ in 0..TRIES {
            match self.send(piece) {
                Ok(0) if !piece.is_empty() => {
                    let _ = self.fail();
                    return Ok(0);
                }
                Ok(n) => return Ok(n),
                Err(error) if error.kind() == ErrorKind::Interrupted => {}
                Err(_) => return Err(self.fail()),
            }
        }
        Err(self.fail())
    }

    fn faults(&self) -> u64 {
        self.faults
    }
}
