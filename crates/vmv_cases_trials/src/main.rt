//! Trials of files of cases: what the marks in a text stand for, and which line of a file can't be read.
#![tactic(auto)]

use std::alloc::Global;
use std::process::ExitCode;
use vmv_cases::{Case, Sheet, Trial, number, numbers, run_cases, tail, word, write_answers};

/// A program of trials whose answers are the texts and words that it is asked about.
struct Echo;

/// Writes the numbers of a line, each in a line of its own.
fn put_numbers(alloc: Global, line: &[u8], sheet: &mut Sheet) {
    let numbers = numbers(alloc, line, sheet);
    for number in numbers.as_slice() {
        sheet.show(number);
        sheet.line(b"");
    }
}

/// Writes word number `place` of a line, where its first word is that number.
fn put_word(line: &[u8], sheet: &mut Sheet) {
    match number(word(line, 0)).map(|place| u32::try_from(place)) {
        Some(Ok(place)) => sheet.line(word(line, place)),
        _ => sheet.refuse(),
    }
}

impl Trial for Echo {
    fn answer(&self, alloc: Global, case: &Case, ask: &[u8], sheet: &mut Sheet) {
        let first = word(ask, 0);
        if first == b"text".as_slice() {
            sheet.put(case.subject(ask));
            sheet.line(b"|");
        } else if first == b"word".as_slice() {
            put_word(tail(ask, 1), sheet);
        } else if first == b"numbers".as_slice() {
            put_numbers(alloc, tail(ask, 1), sheet);
        } else {
            sheet.refuse();
        }
    }
}

struct Trials;

impl Trial for Trials {
    fn answer(&self, alloc: Global, case: &Case, ask: &[u8], sheet: &mut Sheet) {
        if word(ask, 0) != b"answers".as_slice() {
            sheet.refuse();
            return;
        }
        let mut answers = Sheet::new(alloc);
        let unread = write_answers(alloc, &Echo, case.subject(ask), &mut answers);
        sheet.put(answers.bytes());
        if let Some(line) = unread {
            sheet.put(b"unread: line ");
            sheet.show(&line);
            sheet.line(b"");
        }
        if answers.is_short() {
            sheet.fall_short();
        }
    }
}

fn main(rt: HostRuntime) -> ExitCode {
    run_cases(&rt, rt.alloc(), &Trials)
}
