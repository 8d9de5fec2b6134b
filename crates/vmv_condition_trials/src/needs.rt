use crate::puts::{put_conds, put_proc, put_ranges};
use crate::texts::program_of;
use std::alloc::Global;
use std::thread::Threads;
use vmv_assumption::Assumption;
use vmv_cases::{Case, Sheet};
use vmv_cond::Piece;
use vmv_crew::Open;
use vmv_need::{Cut, Needed, ShownBy, necessary};
use vmv_snapshot::{ParamBox, ProcId, Snapshot};

/// Writes an entry with the ranges of a box.
fn put_box(base: &Snapshot, entry: ProcId, within: &ParamBox, sheet: &mut Sheet) {
    put_proc(base, entry, sheet);
    put_ranges(within.ranges(), sheet);
}

fn put_piece(piece: Piece, sheet: &mut Sheet) {
    match piece {
        Piece::Below(word) => {
            sheet.put(b"below ");
            sheet.show(&word);
        }
        Piece::Above(word) => {
            sheet.put(b"above ");
            sheet.show(&word);
        }
        Piece::Zero => sheet.put(b"zero"),
    }
}

/// Writes an exclusion, with how many were recorded before its round.
fn put_cut(base: &Snapshot, cut: &Cut, sheet: &mut Sheet) {
    sheet.put(b"excluded ");
    sheet.put(cut.name.bytes());
    sheet.put(b" ");
    put_piece(cut.piece, sheet);
    sheet.put(b" by ");
    put_box(base, cut.entry, &cut.within, sheet);
    sheet.put(b" after ");
    sheet.show(&cut.under);
    sheet.line(b"");
}

fn put_necessary(base: &Snapshot, assumption: &Assumption, cuts: &[Cut], sheet: &mut Sheet) {
    sheet.line(b"necessary");
    put_conds(assumption, sheet);
    for cut in cuts {
        put_cut(base, cut, sheet);
    }
}

fn put_vacuous(base: &Snapshot, shown_by: &ShownBy, sheet: &mut Sheet) {
    sheet.put(b"vacuous ");
    match shown_by {
        ShownBy::EmptyName(name) => {
            sheet.put(name.bytes());
            sheet.line(b" has no answer");
        }
        ShownBy::Doomed { entry, within, .. } => {
            put_box(base, *entry, within, sheet);
            sheet.line(b" doesn't return");
        }
    }
}

/// `? necessary`: the necessary conditions of the text `program` with the exclusions, or what shows that it is vacuous.
pub fn necessary_of<R: Threads + Sync>(rt: &R, alloc: Global, case: &Case, sheet: &mut Sheet) {
    let Some(base) = program_of(alloc, case, sheet) else {
        return;
    };
    match necessary(rt, alloc, &base, 1, &Open) {
        Ok(Needed::Conditions { assumption, cuts }) => {
            put_necessary(&base, &assumption, cuts.as_slice(), sheet);
        }
        Ok(Needed::Vacuous { shown_by }) => put_vacuous(&base, &shown_by, sheet),
        Err(_) => sheet.fall_short(),
    }
}
