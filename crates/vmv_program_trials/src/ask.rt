use crate::settings::first_setting;
use vmv_cases::{tail, word};

/// What is asked: the words of the command line, and what the things outside do.
#[derive(Debug, Drop)]
pub(crate) struct Ask<'a> {
    /// The words, with one blank between two.
    pub(crate) words: &'a [u8],
    /// Whether the things outside are those that never fail.
    pub(crate) is_whole: bool,
    /// How often it is done, each time over the same things.
    pub(crate) times: u64,
    /// The most bytes that one write of the sink takes.
    pub(crate) most: usize,
    /// The number of the shelf's read that fails, from 1, or 0.
    pub(crate) shelf: u64,
    /// The number of the sink's write that fails, or 0.
    pub(crate) sink: u64,
    /// The number of the vault's call that fails, or 0.
    pub(crate) vault: u64,
    /// The number of a store's call that fails, or 0.
    pub(crate) store: u64,
    /// The number of the door's call that fails, or 0.
    pub(crate) door: u64,
}

/// The most bytes that a sink or a link takes.
pub(crate) const ROOM: usize = 4096;

impl<'a> Ask<'a> {
    /// The ask that a line says, or None where it says none.
    pub(crate) fn read(line: &'a [u8]) -> Option<Ask<'a>> {
        let mut ask = Ask {
            words: line,
            is_whole: false,
            times: 1,
            most: ROOM,
            shelf: 0,
            sink: 0,
            vault: 0,
            store: 0,
            door: 0,
        };
        for _ in 0..8 {
            let Some(said) = first_setting(ask.words) else {
                return ask.begun();
            };
            if !ask.set(said.key, said.count) {
                return None;
            }
            ask.words = said.rest;
        }
        None
    }

    /// The ask with the words behind `run` or `whole`.
    fn begun(mut self) -> Option<Ask<'a>> {
        let begin = word(self.words, 0);
        self.is_whole = begin == b"whole".as_slice();
        if !self.is_whole && begin != b"run".as_slice() {
            return None;
        }
        self.words = tail(self.words, 1);
        Some(self)
    }

    /// Sets what a key says. Answers whether there is such a key.
    fn set(&mut self, key: &[u8], count: u64) -> bool {
        if key == b"times".as_slice() {
            self.times = count;
        } else if key == b"at-most".as_slice() {
            self.most = count as usize;
        } else if key == b"shelf".as_slice() {
            self.shelf = count;
        } else if key == b"sink".as_slice() {
            self.sink = count;
        } else {
            return self.set_of_service(key, count);
        }
        true
    }

    /// The same of what services alone use.
    fn set_of_service(&mut self, key: &[u8], count: u64) -> bool {
        if key == b"vault".as_slice() {
            self.vault = count;
        } else if key == b"store".as_slice() {
            self.store = count;
        } else if key == b"door".as_slice() {
            self.door = count;
        } else {
            return false;
        }
        true
    }
}
