use crate::pieces::{put_pieces, put_written};
use crate::reads::size;
use std::alloc::Global;
use std::io::{self, ErrorKind, Write};
use vmv_cases::{Case, Sheet, word};
use vmv_edge::StreamSink;

/// A writer that is interrupted so often, and then takes at most so many bytes.
#[derive(Drop)]
struct Interrupted {
    times: usize,
    most: usize,
}

impl Write for Interrupted {
    fn write(&mut self, piece: &[u8]) -> io::Result<usize> {
        if self.times > 0 {
            self.times -= 1;
            return Err(io::Error::from(ErrorKind::Interrupted));
        }
        Ok(piece.len().min(self.most))
    }

    fn flush(&mut self) -> io::Result<()> {
        Ok(())
    }
}

/// `? stream TIMES MOST`: what the text `pieces` does to a writer that is interrupted so often, and then takes at most so
/// many bytes at once.
pub fn stream(case: &Case, ask: &[u8], sheet: &mut Sheet) {
    let (Some(times), Some(most)) = (size(word(ask, 1)), size(word(ask, 2))) else {
        sheet.refuse();
        return;
    };
    let mut sink = StreamSink::new(Interrupted { times, most });
    put_pieces(&mut sink, case, sheet);
}

/// `? stdout`: writes a line to standard output at once, before the answers.
pub fn stdout(rt: &HostRuntime, alloc: Global, bytes: &[u8], sheet: &mut Sheet) {
    let mut line = Sheet::new(alloc);
    line.line(bytes);
    let mut sink = StreamSink::new(rt.stdout());
    put_written(&mut sink, line.bytes(), sheet);
}
