use vmv_cases::{Sheet, tail, word};

/// Writes a request whose lines end with LF, with CR LF at the end of each line of its head.
pub(crate) fn with_returns(text: &[u8], request: &mut Sheet) {
    let mut is_head = true;
    let mut begins = false;
    for byte in text {
        if is_head && *byte == b'\n' {
            request.put(b"\r\n");
            is_head = !begins;
            begins = true;
        } else {
            request.put(&[*byte]);
            begins = false;
        }
    }
}

/// Writes the request of a line `METHOD TARGET MEMBER BODY`. Without a body it has no `Content-Length`.
pub(crate) fn put_request(line: &[u8], request: &mut Sheet) {
    request.put(word(line, 0));
    request.put(b" ");
    request.put(word(line, 1));
    request.put(b" HTTP/1.1\r\nHost: x\r\nX-Member: ");
    request.put(word(line, 2));
    request.put(b"\r\n");
    let body = tail(line, 3);
    if !body.is_empty() {
        request.put(b"Content-Length: ");
        request.show(&body.len());
        request.put(b"\r\n");
    }
    request.put(b"\r\n");
    request.put(body);
}
