ghost use Rattle.std.specs.Prelude.{◌≡◌, [], length, map, None, Some, IfOk, IfErr, IfSome, IsSome, All};
ghost use Rattle.httparse.specs.Grammar.{RequestHead};
ghost use Rattle.httparse.specs.Spans.{IsHeaderWithin, IsWithin, header_bytes, span_bytes, IsRequestAt, IsRequestWithin};
ghost use Rattle.vmv_head.specs.Lines.{line_refusal};
ghost use Rattle.vmv_head.specs.Reads.{IsHead, IsHeadRead, IsHeadRefused, IsShown, lines_of};

use crate::lines::{first_value, how_many, length_of, line_refusal};
use crate::refusal::Refusal;
use crate::scan::header_lines;
use httparse::Status;
use httparse::spans::{EMPTY_HEADER_SPAN, HeaderSpan, RequestSpans, parse_request};

/// What of a head decides which command is asked for.
#[derive(Clone, Copy, Debug, Drop)]
pub struct Head<'h> {
    pub method: &'h [u8],
    /// The target, with all that stands behind its path.
    pub target: &'h [u8],
    /// How many `X-Member` lines it has.
    pub members: usize,
    /// The value of the first of them; nothing where there is none.
    pub member: &'h [u8],
    /// How many bytes the body has.
    pub body_len: usize,
}

/// Where the parts of a head are, where the bytes are one with at most 64 headers and nothing more.
fn whole_head(head: &[u8], headers: &mut [HeaderSpan]) -> Option<RequestSpans>
    requires { length headers.old ≡ 64 }
    ensures within { IfSome result (IsRequestWithin head.now headers.new) }
    ensures sound { IfSome result (λ spans. (h : RequestHead) × IsHead head.now h × IsRequestAt head.now headers.new spans h) }
    ensures found { (h : RequestHead) → IsHead head.now h → IsSome result }
{
    match parse_request(head, headers) {
        Ok(Status::Complete(spans)) => if spans.len == head.len() {
            Some(spans)
        } else {
            None
        },
        _ => None,
    }
}

/// What decides of a head whose parts are there.
fn read_lines<'h>(
    head: &'h [u8],
    spans: &RequestSpans,
    lines: &[HeaderSpan],
) -> Result<Head<'h>, Refusal>
    requires method { IsWithin (length head.now) spans.now.method }
    requires path { IsWithin (length head.now) spans.now.path }
    requires lines { All (IsHeaderWithin (length head.now)) lines.now }
    ensures fine { IfOk result (λ _. line_refusal spans.now.version (span_bytes head.now spans.now.method) (map (header_bytes head.now) lines.now) ≡ None) }
    ensures shown { IfOk result (IsShown (span_bytes head.now spans.now.method) (span_bytes head.now spans.now.path) (map (header_bytes head.now) lines.now)) }
    ensures refused { IfErr result (λ refusal. line_refusal spans.now.version (span_bytes head.now spans.now.method) (map (header_bytes head.now) lines.now) ≡ Some refusal) }
{
    let method = spans.method.of(head);
    if let Some(refusal) = line_refusal(head, spans.version, method, lines) {
        return Err(refusal);
    }
    let target = spans.path.of(head);
    let members = how_many(head, lines, b"x-member");
    let member = first_value(head, lines, b"x-member");
    let body_len = length_of(first_value(head, lines, b"content-length"));
    Ok(Head {
        method,
        target,
        members,
        member,
        body_len,
    })
}

/// What of a whole head decides, or why it is refused.
pub fn read_head(head: &[u8]) -> Result<Head<'_>, Refusal>
    ensures ok { IfOk result (λ read. (h : RequestHead) × IsHeadRead head.now h × IsShown h.method h.target (lines_of h) read) }
    ensures err { IfErr result (IsHeadRefused head.now) }
{
    if header_lines(head) > 64 {
        return Err(Refusal::HeadTooLong);
    }
    let mut headers = [EMPTY_HEADER_SPAN; 64];
    match whole_head(head, &mut headers) {
        Some(spans) => read_lines(head, &spans, &headers[..spans.headers]),
        None => Err(Refusal::HeadUnread),
    }
}
