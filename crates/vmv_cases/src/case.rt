use crate::marks::add_line;
use crate::sheet::Sheet;
use crate::words::{tail, word};
use std::alloc::Global;

#[derive(Debug, Drop)]
struct NamedText {
    name: Sheet,
    text: Sheet,
}

/// The texts of a case, as far as it has been read.
#[derive(Debug, Drop)]
pub struct Case {
    alloc: Global,
    texts: Vec<NamedText>,
    is_short: bool,
}

impl Case {
    /// A case with no texts.
    pub fn new(alloc: Global) -> Case {
        Case {
            alloc,
            texts: Vec::new(alloc),
            is_short: false,
        }
    }

    /// The last text of this name, or the last of all where no name is given. It is empty where there is none.
    pub fn text(&self, name: &[u8]) -> &[u8] {
        for named in self.texts.iter().rev() {
            if name.is_empty() || named.name.bytes() == name {
                return named.text.bytes();
            }
        }
        b"".as_slice()
    }

    /// The text that an ask is about: what stands behind `| ` where that is its second word, and else the text that
    /// the second word names, or the last one.
    pub fn subject<'a>(&'a self, ask: &'a [u8]) -> &'a [u8] {
        let name = word(ask, 1);
        if name == b"|".as_slice() {
            tail(ask, 2)
        } else {
            self.text(name)
        }
    }

    /// Begins a text of this name.
    pub fn begin_text(&mut self, name: &[u8]) {
        let mut title = Sheet::new(self.alloc);
        title.put(name);
        let text = Sheet::new(self.alloc);
        if self.texts.push(NamedText { name: title, text }).is_err() {
            self.is_short = true;
        }
    }

    /// Adds a line to the last text. Answers whether the line can be read.
    pub fn add_line(&mut self, line: &[u8]) -> bool {
        match self.texts.last_mut() {
            Some(named) => add_line(&mut named.text, line),
            None => false,
        }
    }

    /// Whether memory ran out.
    pub fn is_short(&self) -> bool {
        self.is_short
            || self
                .texts
                .iter()
                .any(|named| named.name.is_short() || named.text.is_short())
    }
}
