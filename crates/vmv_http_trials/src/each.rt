use crate::judge::judge;
use crate::links::{desk, serve};
use crate::show::{put_count, put_served};
use std::alloc::Global;
use vmv_cases::{Case, Sheet};
use vmv_desk::Desk;
use vmv_edge::{Link, MemoryLink};
use vmv_http::Served;
use vmv_keeper::{Keeper, MemoryJudge, MemoryKeeper};

/// How many projects a desk's store has.
fn projects(alloc: Global, desk: Desk<MemoryKeeper>, sheet: &mut Sheet) -> usize {
    let mut keeper = desk.close();
    match keeper.projects(alloc) {
        Ok(projects) => projects.as_slice().len(),
        Err(_) => {
            sheet.fall_short();
            0
        }
    }
}

/// Serves a request over a store without rows, on a link whose calls with these numbers fail. Writes how, how many bytes
/// were written, and how many projects there are then. Answers the link.
fn put_one(
    alloc: Global,
    judge: &MemoryJudge,
    request: &[u8],
    most: usize,
    failing: Vec<u64>,
    sheet: &mut Sheet,
) -> Option<MemoryLink> {
    let mut desk = desk(alloc, Vec::new(alloc), sheet)?;
    let (served, link) = serve(alloc, &mut desk, judge, request, most, failing, sheet)?;
    put_served(served, sheet);
    put_count(b"written", link.bytes().len(), sheet);
    put_count(b"projects", projects(alloc, desk, sheet), sheet);
    sheet.line(b"");
    Some(link)
}

/// `? each NAME MOST`: the same for each call of the link that may fail, one after another.
pub(crate) fn put_each(alloc: Global, case: &Case, request: &[u8], most: usize, sheet: &mut Sheet) {
    let judge = judge(alloc, case, sheet);
    for call in 1..1_000u64 {
        let Ok(failing) = Vec::from_slice(alloc, &[call]) else {
            sheet.fall_short();
            return;
        };
        match put_one(alloc, &judge, request, most, failing, sheet) {
            Some(link) if link.faults() > 0 => {}
            _ => return,
        }
    }
}

/// How the first bytes of a request are served, and how many bytes are written then.
fn cut(
    alloc: Global,
    judge: &MemoryJudge,
    request: &[u8],
    sheet: &mut Sheet,
) -> Option<(Served, usize)> {
    let mut desk = desk(alloc, Vec::new(alloc), sheet)?;
    let (served, link) = serve(
        alloc,
        &mut desk,
        judge,
        request,
        1_000_000,
        Vec::new(alloc),
        sheet,
    )?;
    Some((served, link.bytes().len()))
}

fn put_cut(from: usize, told: (Served, usize), sheet: &mut Sheet) {
    sheet.put(b"from ");
    sheet.show(&from);
    sheet.put(b": ");
    put_served(told.0, sheet);
    put_count(b"written", told.1, sheet);
    sheet.line(b"");
}

/// `? cuts NAME`: from which length on the first bytes of a request are served how, up to the whole request.
pub(crate) fn put_cuts(alloc: Global, case: &Case, request: &[u8], sheet: &mut Sheet) {
    let judge = judge(alloc, case, sheet);
    let mut last = None;
    for len in 0..=request.len() {
        let Some(told) = cut(alloc, &judge, &request[..len], sheet) else {
            return;
        };
        if last != Some(told) {
            put_cut(len, told, sheet);
        }
        last = Some(told);
    }
}
