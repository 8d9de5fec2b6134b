use std::alloc::Global;
use std::fmt::Display;

/// Bytes that are written one piece behind the other, as the answers to cases are.
///
/// No call fails. Where memory ran out, the bytes are fewer, and the sheet says so at its end.
#[derive(Debug, Drop)]
pub struct Sheet {
    alloc: Global,
    bytes: Vec<u8>,
    is_short: bool,
    is_refused: bool,
}

impl Sheet {
    /// An empty sheet.
    pub fn new(alloc: Global) -> Sheet {
        Sheet {
            alloc,
            bytes: Vec::new(alloc),
            is_short: false,
            is_refused: false,
        }
    }

    /// Writes bytes as they are.
    pub fn put(&mut self, bytes: &[u8]) {
        if self.bytes.extend_from_slice(bytes).is_err() {
            self.is_short = true;
        }
    }

    /// Writes a value as `{}` prints it.
    pub fn show<T: Display>(&mut self, value: &T) {
        match value.to_string(self.alloc) {
            Ok(text) => self.put(text.as_bytes()),
            Err(_) => self.is_short = true,
        }
    }

    /// Writes bytes, and ends the line.
    pub fn line(&mut self, bytes: &[u8]) {
        self.put(bytes);
        self.put(b"\n");
    }

    /// Takes back the end of a line where the last byte is one.
    pub fn join_line(&mut self) {
        if self.bytes.as_slice().last() == Some(&b'\n') {
            let _end = self.bytes.pop();
        }
    }

    /// What was written.
    pub fn bytes(&self) -> &[u8] {
        self.bytes.as_slice()
    }

    /// Says that memory ran out.
    pub fn fall_short(&mut self) {
        self.is_short = true;
    }

    /// Whether memory ran out.
    pub fn is_short(&self) -> bool {
        self.is_short
    }

    /// Says that an ask can't be read.
    pub fn refuse(&mut self) {
        self.is_refused = true;
    }

    /// Whether an ask couldn't be read.
    pub fn is_refused(&self) -> bool {
        self.is_refused
    }
}
