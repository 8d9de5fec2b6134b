//! Trials of conditions, assumptions, abstract states and abstract steps.
#![tactic(auto)]

mod assumption;
mod cond;
mod given;
mod order;
mod repeat;
mod step;
mod words;
mod zone;

use std::alloc::Global;
use std::process::ExitCode;
use vmv_cases::{Case, Sheet, Trial, run_cases, tail, word};

struct Trials;

/// Answers an ask about the condition of a text. Answers whether it is one.
fn ask_cond(word: &[u8], text: &[u8], rest: &[u8], sheet: &mut Sheet) -> bool {
    if word == b"words".as_slice() {
        cond::words(rest, sheet);
    } else if word == b"nearest".as_slice() {
        cond::nearest(rest, sheet);
    } else if word == b"holds".as_slice() {
        cond::holds(text, rest, sheet);
    } else if word == b"meet".as_slice() {
        cond::meet(text, rest, sheet);
    } else if word == b"same".as_slice() {
        cond::same(text, rest, sheet);
    } else if word == b"piece".as_slice() {
        cond::piece(text, rest, sheet);
    } else {
        return false;
    }
    true
}

/// Answers an ask about the state of a text. Answers whether it is one.
fn ask_state(alloc: Global, word: &[u8], text: &[u8], rest: &[u8], sheet: &mut Sheet) -> bool {
    if word == b"norm".as_slice() {
        zone::norm(alloc, text, sheet);
    } else if word == b"guard".as_slice() {
        zone::guard(alloc, text, rest, sheet);
    } else if word == b"assign".as_slice() {
        given::assign(alloc, text, rest, sheet);
    } else if word == b"free".as_slice() {
        zone::free(alloc, text, rest, sheet);
    } else if word == b"range".as_slice() {
        zone::range(text, rest, sheet);
    } else if word == b"round".as_slice() {
        order::round(alloc, text, sheet);
    } else if word == b"args".as_slice() {
        order::args(alloc, text, rest, sheet);
    } else {
        return false;
    }
    true
}

/// Answers an ask about a step from the state of a text. Answers whether it is one.
fn ask_step(word: &[u8], text: &[u8], rest: &[u8], sheet: &mut Sheet) -> bool {
    if word == b"branch".as_slice() {
        step::branches(text, rest, sheet);
    } else if word == b"pass".as_slice() {
        step::passed(text, rest, sheet);
    } else {
        return false;
    }
    true
}

/// Answers an ask about the loop `repeat v1 to v3 cap 5 { }`, where v2 is the slot of its bound. Answers whether it is one.
fn ask_loop(alloc: Global, word: &[u8], text: &[u8], sheet: &mut Sheet) -> bool {
    if word == b"head".as_slice() {
        repeat::heads(alloc, text, sheet);
    } else if word == b"turn".as_slice() {
        repeat::turns(alloc, text, sheet);
    } else {
        return false;
    }
    true
}

/// Answers an ask about several texts. Answers whether it is one.
fn ask_texts(alloc: Global, case: &Case, ask: &[u8], sheet: &mut Sheet) -> bool {
    let word = word(ask, 0);
    if word == b"join".as_slice() {
        order::join(alloc, case, tail(ask, 1), sheet);
    } else if word == b"below".as_slice() {
        order::below(case, tail(ask, 1), sheet);
    } else if word == b"step".as_slice() {
        step::step_of(alloc, case, tail(ask, 1), sheet);
    } else if word == b"enter".as_slice() {
        step::entered(alloc, case, sheet);
    } else if word == b"assume".as_slice() {
        assumption::assume(alloc, case, sheet);
    } else {
        return false;
    }
    true
}

impl Trial for Trials {
    fn answer(&self, alloc: Global, case: &Case, ask: &[u8], sheet: &mut Sheet) {
        let first = word(ask, 0);
        let rest = tail(ask, 1);
        let text = words::first_line(case.text(b""));
        if ask_cond(first, text, rest, sheet) {
            return;
        }
        if ask_state(alloc, first, text, rest, sheet) {
            return;
        }
        if ask_step(first, text, rest, sheet) || ask_loop(alloc, first, text, sheet) {
            return;
        }
        if !ask_texts(alloc, case, ask, sheet) {
            sheet.refuse();
        }
    }
}

fn main(rt: HostRuntime) -> ExitCode {
    run_cases(&rt, rt.alloc(), &Trials)
}
