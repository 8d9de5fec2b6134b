use crate::judge::judge;
use crate::show::{put_bytes, put_count, put_served};
use std::alloc::Global;
use vmv_cases::{Case, Sheet};
use vmv_desk::Desk;
use vmv_edge::MemoryLink;
use vmv_http::{Served, serve_one};
use vmv_keeper::{Judge, MemoryKeeper};

/// A desk over a store in memory without rows, whose calls with these numbers fail.
pub(crate) fn desk(
    alloc: Global,
    failing: Vec<u64>,
    sheet: &mut Sheet,
) -> Option<Desk<MemoryKeeper>> {
    match Desk::start(alloc, MemoryKeeper::new(alloc, failing)) {
        Ok(desk) => Some(desk),
        Err(_) => {
            sheet.fall_short();
            None
        }
    }
}

/// A link with a request, which reads and writes at most so many bytes in a call. Its calls with these numbers fail.
fn link(
    alloc: Global,
    request: &[u8],
    most: usize,
    failing: Vec<u64>,
    sheet: &mut Sheet,
) -> Option<MemoryLink> {
    let link = Vec::from_slice(alloc, request).and_then(|input| MemoryLink::new(
        alloc, input, 262_144, most, failing,
    ));
    match link {
        Ok(link) => Some(link),
        Err(_) => {
            sheet.fall_short();
            None
        }
    }
}

/// Serves a request, and answers how, with the link behind it.
pub(crate) fn serve<J: Judge>(
    alloc: Global,
    desk: &mut Desk<MemoryKeeper>,
    judge: &J,
    request: &[u8],
    most: usize,
    failing: Vec<u64>,
    sheet: &mut Sheet,
) -> Option<(Served, MemoryLink)> {
    let mut link = link(alloc, request, most, failing, sheet)?;
    let served = serve_one(alloc, &mut link, desk, judge);
    Some((served, link))
}

/// `? answer NAME MOST` and `? raw NAME MOST`: how a request is served over a store without rows, how many bytes weren't
/// read, and what was written.
pub(crate) fn put_whole(
    alloc: Global,
    case: &Case,
    request: &[u8],
    most: usize,
    sheet: &mut Sheet,
) {
    let judge = judge(alloc, case, sheet);
    let Some(mut desk) = desk(alloc, Vec::new(alloc), sheet) else {
        return;
    };
    let served = serve(
        alloc,
        &mut desk,
        &judge,
        request,
        most,
        Vec::new(alloc),
        sheet,
    );
    if let Some((served, link)) = served {
        put_served(served, sheet);
        put_count(b"left", link.left(), sheet);
        sheet.line(b"");
        if !link.bytes().is_empty() {
            put_bytes(link.bytes(), sheet);
        }
    }
}
