use crate::keeper::NotingKeeper;
use std::alloc::Global;
use vmv_cases::{Case, Sheet, number, word};
use vmv_desk::Desk;
use vmv_desk_texts::{command, halves, put_reply};
use vmv_keeper::MemoryJudge;

/// What the commands of a history are read and judged by.
#[derive(Drop)]
pub struct Setting<'c> {
    pub alloc: Global,
    pub case: &'c Case,
    pub judge: MemoryJudge,
}

/// Writes the reply to the command of a line.
pub fn put_turn(setting: &Setting, desk: &mut Desk<NotingKeeper>, line: &[u8], sheet: &mut Sheet) {
    match command(setting.alloc, setting.case, line, sheet) {
        Some(command) => {
            let reply = desk.handle(setting.alloc, &command, &setting.judge);
            put_reply(&reply, sheet);
        }
        None => sheet.refuse(),
    }
}

/// A line with the number for each `@`, and the one behind it for each `#`.
fn numbered(alloc: Global, line: &[u8], number: i64) -> Sheet {
    let mut text = Sheet::new(alloc);
    for byte in line {
        match *byte {
            b'@' => text.show(&number),
            b'#' => text.show(&number.saturating_add(1)),
            other => text.put(&[other]),
        }
    }
    text
}

/// Whether the command before the `=` of a line has the reply behind it. Another reply is written.
fn is_as_said(
    setting: &Setting,
    desk: &mut Desk<NotingKeeper>,
    line: &[u8],
    sheet: &mut Sheet,
) -> bool {
    let (asked, said) = halves(line);
    let mut told = Sheet::new(setting.alloc);
    told.put(b" ");
    put_turn(setting, desk, asked, &mut told);
    told.join_line();
    if told.is_short() {
        sheet.fall_short();
    }
    let is_said = told.bytes() == said && !told.is_refused();
    if !is_said {
        sheet.put(asked);
        sheet.put(b"gave");
        sheet.line(told.bytes());
    }
    is_said
}

/// Whether each line of a text has its reply, with this number.
fn are_as_said(
    setting: &Setting,
    desk: &mut Desk<NotingKeeper>,
    text: &[u8],
    number: i64,
    sheet: &mut Sheet,
) -> bool {
    for line in text.split(|byte| *byte == b'\n') {
        let line = numbered(setting.alloc, line, number);
        if !line.bytes().is_empty() && !is_as_said(setting, desk, line.bytes(), sheet) {
            return false;
        }
    }
    true
}

/// `repeat FIRST LAST NAME`: does the lines of the text of this name, each a command, `=` and its reply, with each of these
/// numbers, up to the first that has another reply.
pub fn repeat(setting: &Setting, desk: &mut Desk<NotingKeeper>, line: &[u8], sheet: &mut Sheet) {
    let (Some(first), Some(last)) = (number(word(line, 1)), number(word(line, 2))) else {
        sheet.refuse();
        return;
    };
    let text = setting.case.text(word(line, 3));
    let mut count = 0u32;
    for number in first..last.saturating_add(1) {
        if !are_as_said(setting, desk, text, number, sheet) {
            return;
        }
        count = count.saturating_add(1);
    }
    sheet.show(&count);
    sheet.line(b" times as said");
}
