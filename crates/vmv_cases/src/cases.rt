use crate::case::Case;
use crate::sheet::Sheet;
use crate::trial::Trial;
use crate::words::cut;
use std::alloc::Global;

/// Where in a file of cases a line stands.
#[derive(Clone, Copy)]
enum Place {
    /// Before the first case.
    Head,
    /// Behind a title.
    Note,
    /// In a text.
    Text,
    /// Behind an ask.
    Asks,
}

#[derive(Drop)]
struct Reader {
    alloc: Global,
    case: Case,
    place: Place,
}

impl Reader {
    fn new(alloc: Global) -> Reader {
        Reader {
            alloc,
            case: Case::new(alloc),
            place: Place::Head,
        }
    }

    /// Begins a case.
    fn begin(&mut self, title: &[u8], sheet: &mut Sheet) {
        self.case = Case::new(self.alloc);
        self.place = Place::Note;
        sheet.put(b"== ");
        sheet.line(title);
    }

    /// Begins a text.
    fn begin_text(&mut self, name: &[u8]) {
        self.case.begin_text(name);
        self.place = Place::Text;
    }

    /// Answers an ask.
    fn ask<T: Trial>(&mut self, trial: &T, ask: &[u8], sheet: &mut Sheet) -> bool {
        self.place = Place::Asks;
        trial.answer(self.alloc, &self.case, ask, sheet);
        self.tell_memory(sheet);
        !sheet.is_refused()
    }

    /// Tells where memory ran out for a text.
    fn tell_memory(&self, sheet: &mut Sheet) {
        if self.case.is_short() {
            sheet.fall_short();
        }
    }

    /// Reads a line that begins nothing.
    fn other(&mut self, line: &[u8]) -> bool {
        match self.place {
            Place::Head | Place::Note => true,
            Place::Text => self.case.add_line(line),
            Place::Asks => line.is_empty(),
        }
    }

    /// Reads a line. Answers whether it can be read.
    fn line<T: Trial>(&mut self, trial: &T, line: &[u8], sheet: &mut Sheet) -> bool {
        let (mark, rest) = cut(line);
        if mark == b"==".as_slice() {
            self.begin(rest, sheet);
            return true;
        }
        if matches!(self.place, Place::Head) {
            return true;
        }
        if mark == b"--".as_slice() {
            self.begin_text(rest);
            true
        } else if mark == b"?".as_slice() {
            self.ask(trial, rest, sheet)
        } else {
            self.other(line)
        }
    }
}

/// Writes the answers to all cases of a file. Answers the number of the first line that can't be read, from 1, behind which
/// nothing is answered.
pub fn write_answers<T: Trial>(
    alloc: Global,
    trial: &T,
    file: &[u8],
    sheet: &mut Sheet,
) -> Option<u64> {
    let mut reader = Reader::new(alloc);
    let mut number = 0u64;
    for line in file.split(|byte| *byte == b'\n') {
        number = number.saturating_add(1);
        if !reader.line(trial, line, sheet) {
            reader.tell_memory(sheet);
            return Some(number);
        }
    }
    None
}
