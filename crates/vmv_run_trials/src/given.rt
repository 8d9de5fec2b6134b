use std::alloc::Global;
use vmv_cases::{Sheet, number};
use vmv_run::Answer;
use vmv_tree::Name;

/// What an ask gives to a run: `PARAM .. with NAME VALUE ..`.
#[derive(Debug, Drop)]
pub struct Given {
    pub params: Vec<i64>,
    pub answers: Vec<Answer>,
    has_all_params: bool,
    pending: Option<Name>,
}

impl Given {
    fn new(alloc: Global) -> Given {
        Given {
            params: Vec::new(alloc),
            answers: Vec::new(alloc),
            has_all_params: false,
            pending: None,
        }
    }

    fn take_param(&mut self, word: &[u8], sheet: &mut Sheet) {
        let Some(value) = number(word) else {
            sheet.refuse();
            return;
        };
        if self.params.push(value).is_err() {
            sheet.fall_short();
        }
    }

    fn take_name(&mut self, word: &[u8], sheet: &mut Sheet) {
        self.pending = Name::read(word);
        if self.pending.is_none() {
            sheet.refuse();
        }
    }

    fn take_value(&mut self, name: Name, word: &[u8], sheet: &mut Sheet) {
        self.pending = None;
        let Some(value) = number(word) else {
            sheet.refuse();
            return;
        };
        if self.answers.push(Answer { name, value }).is_err() {
            sheet.fall_short();
        }
    }

    fn take(&mut self, word: &[u8], sheet: &mut Sheet) {
        if word == b"with".as_slice() {
            self.has_all_params = true;
        } else if !self.has_all_params {
            self.take_param(word, sheet);
        } else if let Some(name) = self.pending {
            self.take_value(name, word, sheet);
        } else {
            self.take_name(word, sheet);
        }
    }
}

/// What the words of a line give. A word that doesn't fit there is refused.
pub fn read_given(alloc: Global, line: &[u8], sheet: &mut Sheet) -> Given {
    let mut given = Given::new(alloc);
    for word in line.split(|byte| *byte == b' ') {
        if !word.is_empty() {
            given.take(word, sheet);
        }
    }
    given
}
