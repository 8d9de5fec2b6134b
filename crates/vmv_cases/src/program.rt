use crate::cases::write_answers;
use crate::sheet::Sheet;
use crate::trial::Trial;
use std::alloc::Global;
use std::io::{self, Read, Write};
use std::process::ExitCode;

/// What ends a sheet: the line that can't be read, or that memory ran out. Answers the status.
fn end(sheet: &mut Sheet, unread: Option<u64>) -> u8 {
    if sheet.is_short() {
        sheet.line(b"memory ran out");
        return 8;
    }
    let Some(number) = unread else {
        return 0;
    };
    sheet.put(b"line ");
    sheet.show(&number);
    sheet.line(b" can't be read");
    2
}

/// Reads a file of cases from standard input and writes the answers to standard output.
///
/// The status is 0; or 2 where a line can't be read, which is told at the end; 6 where the input can't be read; 7 where the output
/// can't be written; 8 where memory ran out.
pub fn run_cases<R: Input + Print, T: Trial>(rt: &R, alloc: Global, trial: &T) -> ExitCode {
    let mut file = Vec::new(alloc);
    if rt.reader().read_to_end(&mut file).is_err() {
        return ExitCode::from(6);
    }
    let mut sheet = Sheet::new(alloc);
    let unread = write_answers(alloc, trial, file.as_slice(), &mut sheet);
    let status = end(&mut sheet, unread);
    if io::writer(rt).write_all(sheet.bytes()).is_err() {
        return ExitCode::from(7);
    }
    ExitCode::from(status)
}
