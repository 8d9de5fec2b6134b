use std::alloc::Global;
use vmv_cases::{Case, Sheet, word};
use vmv_desk_texts::{judge, put_fault_of_text, put_number, text_of};
use vmv_edge::Text;
use vmv_keeper::{Compared, Inspected, Judge};

fn put_inspected(said: Inspected, sheet: &mut Sheet) {
    match said {
        Inspected::Fine => sheet.line(b"fine"),
        Inspected::Vacuous => sheet.line(b"vacuous"),
        Inspected::Refused {
            number,
            line,
            column,
        } => put_fault_of_text(number, line, column, sheet),
    }
}

fn put_compared(said: &Compared, sheet: &mut Sheet) {
    match said {
        Compared::Judged { verdict, json } => {
            sheet.put(b"verdict ");
            sheet.show(verdict);
            sheet.put(b" ");
            sheet.line(json.bytes());
        }
        Compared::Unreadable { which } => put_number(b"unreadable", *which as u32, sheet),
    }
}

/// Writes what any judge says of a text.
fn inspect<J: Judge>(judge: &J, alloc: Global, text: &Text, sheet: &mut Sheet) {
    match judge.inspect(alloc, text) {
        Ok(said) => put_inspected(said, sheet),
        Err(_) => sheet.fall_short(),
    }
}

/// Writes what any judge says of two texts.
fn compare<J: Judge>(judge: &J, alloc: Global, base: &Text, revision: &Text, sheet: &mut Sheet) {
    match judge.compare(alloc, base, revision) {
        Ok(said) => put_compared(&said, sheet),
        Err(_) => sheet.fall_short(),
    }
}

/// Writes what any judge says of the texts that an ask names.
fn ask_judge<J: Judge>(judge: &J, alloc: Global, case: &Case, ask: &[u8], sheet: &mut Sheet) {
    let first = Text::from_slice(alloc, text_of(case, word(ask, 1)));
    let second = Text::from_slice(alloc, text_of(case, word(ask, 2)));
    let (Ok(first), Ok(second)) = (first, second) else {
        sheet.fall_short();
        return;
    };
    if word(ask, 2).is_empty() {
        inspect(judge, alloc, &first, sheet);
    } else {
        compare(judge, alloc, &first, &second, sheet);
    }
}

/// `? inspect TEXT` and `? compare BASE REVISION`: what the judge of the text `judge` says.
pub fn judged(alloc: Global, case: &Case, ask: &[u8], sheet: &mut Sheet) {
    let judge = judge(alloc, case, sheet);
    ask_judge(&judge, alloc, case, ask, sheet);
}

/// `? gate_inspect TEXT` and `? gate_compare BASE REVISION`: what the gate says.
pub fn gated<J: Judge>(gate: &J, alloc: Global, case: &Case, ask: &[u8], sheet: &mut Sheet) {
    ask_judge(gate, alloc, case, ask, sheet);
}
