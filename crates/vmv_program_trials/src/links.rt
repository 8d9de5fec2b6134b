use crate::ask::ROOM;
use crate::devices::listed;
use crate::settings::first_setting;
use std::alloc::{AllocError, Global};
use vmv_cases::{Case, Sheet, tail, word};
use vmv_edge::{FaultlessLink, MemoryLink};

/// A request, and how the link behaves that brings it.
#[derive(Debug, Drop)]
struct Brought<'a> {
    /// The request: its method, its target, its member and its body.
    line: &'a [u8],
    /// The number of the link's call that fails, from 1, or 0.
    failing: u64,
    /// The most bytes that one call reads or writes.
    most: usize,
    /// How many bytes of the request come at most.
    first: usize,
}

impl<'a> Brought<'a> {
    /// What a line says. A key that there isn't is refused on the sheet.
    fn read(line: &'a [u8], sheet: &mut Sheet) -> Brought<'a> {
        let mut brought = Brought {
            line,
            failing: 0,
            most: ROOM,
            first: ROOM,
        };
        for _ in 0..4 {
            let Some(said) = first_setting(brought.line) else {
                return brought;
            };
            if !brought.set(said.key, said.count) {
                sheet.refuse();
            }
            brought.line = said.rest;
        }
        brought
    }

    /// Sets what a key says. Answers whether there is such a key.
    fn set(&mut self, key: &[u8], count: u64) -> bool {
        if key == b"failing".as_slice() {
            self.failing = count;
        } else if key == b"at-most".as_slice() {
            self.most = count as usize;
        } else if key == b"first".as_slice() {
            self.first = count as usize;
        } else {
            return false;
        }
        true
    }

    /// The bytes of the request that come. Without a body it has no `Content-Length`.
    fn bytes(&self, alloc: Global) -> Result<Vec<u8>, AllocError> {
        let mut request = Sheet::new(alloc);
        put_request(self.line, &mut request);
        if request.is_short() {
            return Err(AllocError);
        }
        let bytes = request.bytes();
        Vec::from_slice(alloc, &bytes[..self.first.min(bytes.len())])
    }
}

/// Writes the request of a line `METHOD TARGET MEMBER BODY`.
fn put_request(line: &[u8], request: &mut Sheet) {
    request.put(word(line, 0));
    request.put(b" ");
    request.put(word(line, 1));
    request.put(b" HTTP/1.1\r\nHost: x\r\nX-Member: ");
    request.put(word(line, 2));
    request.put(b"\r\n");
    let body = tail(line, 3);
    if !body.is_empty() {
        request.put(b"Content-Length: ");
        request.show(&body.len());
        request.put(b"\r\n");
    }
    request.put(b"\r\n");
    request.put(body);
}

/// The links of the text `links`, a line each.
pub(crate) fn memory_links(
    alloc: Global,
    case: &Case,
    sheet: &mut Sheet,
) -> Result<Vec<MemoryLink>, AllocError> {
    let mut links = Vec::new(alloc);
    for line in case.text(b"links").split(|byte| *byte == b'\n') {
        if !line.is_empty() {
            let brought = Brought::read(line, sheet);
            let failing = listed(alloc, brought.failing)?;
            let input = brought.bytes(alloc)?;
            links.push(MemoryLink::new(alloc, input, ROOM, brought.most, failing)?)?;
        }
    }
    Ok(links)
}

/// The same as links that never fail, which read and write all at once.
pub(crate) fn faultless_links(
    alloc: Global,
    case: &Case,
    sheet: &mut Sheet,
) -> Result<Vec<FaultlessLink>, AllocError> {
    let mut links = Vec::new(alloc);
    for line in case.text(b"links").split(|byte| *byte == b'\n') {
        if !line.is_empty() {
            let input = Brought::read(line, sheet).bytes(alloc)?;
            links.push(FaultlessLink::new(alloc, input, ROOM)?)?;
        }
    }
    Ok(links)
}
