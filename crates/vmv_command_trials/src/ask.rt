use vmv_cases::{number, tail, word};

/// What is asked: the words of a command, and which calls of the devices fail.
#[derive(Debug, Drop)]
pub struct Ask<'a> {
    /// The words, with one blank between two.
    pub words: &'a [u8],
    /// The number of the read that fails, from 1, or 0.
    pub failing_read: u64,
    /// The number of the write that fails, from 1, or 0.
    pub failing_write: u64,
    /// The most bytes that one write takes.
    pub most: usize,
}

/// The most bytes that a sink takes.
pub const ROOM: usize = 4096;

impl<'a> Ask<'a> {
    /// The ask that a line says, or None where it says none.
    pub fn read(line: &'a [u8]) -> Option<Ask<'a>> {
        let mut ask = Ask {
            words: line,
            failing_read: 0,
            failing_write: 0,
            most: ROOM,
        };
        for _ in 0..4 {
            let key = word(ask.words, 0);
            if key == b"run".as_slice() {
                ask.words = tail(ask.words, 1);
                return Some(ask);
            }
            let count = number(word(ask.words, 1))?;
            if !ask.set(key, count) {
                return None;
            }
            ask.words = tail(ask.words, 2);
        }
        None
    }

    /// Sets what a key says of the devices. Answers whether there is such a key.
    fn set(&mut self, key: &[u8], count: i64) -> bool {
        let Ok(count) = u64::try_from(count) else {
            return false;
        };
        if key == b"failing-read".as_slice() {
            self.failing_read = count;
        } else if key == b"failing-write".as_slice() {
            self.failing_write = count;
        } else if key == b"at-most".as_slice() {
            self.most = count as usize;
        } else {
            return false;
        }
        true
    }
}
