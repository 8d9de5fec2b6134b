ghost use Rattle.std.specs.Prelude.{◌≡◌, ◌≤◌, ◌^◌, true, length, map, min, All};
ghost use Rattle.std.specs.List.{list_all};
ghost use Rattle.std.specs.Char.{is_ascii_digit};
ghost use Rattle.std.specs.Str.Parse.{digits_value};
ghost use Rattle.httparse.specs.Spans.{IsHeaderWithin, header_bytes};
ghost use Rattle.vmv_head.specs.Lines.{is_named, how_many, first_value, is_digits, number_in, is_post, length_refusal, line_refusal};

use crate::refusal::Refusal;
use httparse::spans::HeaderSpan;

/// Whether a line has this name, whatever the case of its letters.
fn is_named(head: &[u8], line: &HeaderSpan, name: &[u8]) -> bool
    requires { IsHeaderWithin (length head.now) line.now }
    ensures { result ≡ is_named name.now (header_bytes head.now line.now) }
{
    line.name.of(head).eq_ignore_ascii_case(name)
}

/// How many lines have this name.
#[tactic(auto, using(crate::proofs::Reading::counting))]
pub(crate) fn how_many(head: &[u8], lines: &[HeaderSpan], name: &[u8]) -> usize
    requires { All (IsHeaderWithin (length head.now)) lines.now }
    ensures value { result ≡ how_many name.now (map (header_bytes head.now) lines.now) }
{
    let mut count = 0;
    for line in lines {
        if is_named(head, line, name) {
            count += 1;
        }
    }
    count
}

/// The value of the first line of this name; nothing where there is none.
pub(crate) fn first_value<'h>(head: &'h [u8], lines: &[HeaderSpan], name: &[u8]) -> &'h [u8]
    requires { All (IsHeaderWithin (length head.now)) lines.now }
    ensures { result.now ≡ first_value name.now (map (header_bytes head.now) lines.now) }
{
    for line in lines {
        if is_named(head, line, name) {
            return line.value.of(head);
        }
    }
    &[]
}

fn all_digits(bytes: &[u8]) -> bool
    ensures { result ≡ list_all is_ascii_digit bytes.now }
{
    bytes.iter().all(|byte| byte.is_ascii_digit())
}

/// Whether the bytes are one decimal digit or more, and nothing else.
pub fn is_digits(bytes: &[u8]) -> bool
    ensures { result ≡ is_digits bytes.now }
{
    0 < bytes.len() && all_digits(bytes)
}

/// Whether the method is that of a change.
fn is_post(method: &[u8]) -> bool
    ensures { result ≡ is_post method.now }
{
    method == b"POST".as_slice()
}

/// The value of some digits, or `most` where it is greater.
#[tactic(auto, using(crate::proofs::Counting::digits))]
pub fn value_of(digits: &[u8], most: u64) -> u64
    requires all { is_digits digits.now ≡ true }
    requires most { most ≤ 2 ^ 40 }
    ensures { result ≡ min (digits_value 10 digits.now) most }
{
    let mut value: u64 = 0;
    for digit in digits {
        let more = u64::from(digit.saturating_sub(b'0'));
        value = (value * 10 + more).min(most);
    }
    value
}

/// The number that a value of digits writes, or 131,073 where it is greater; 0 where it isn't digits.
pub(crate) fn length_of(value: &[u8]) -> usize
    ensures { result ≡ min (number_in value.now) 131073 }
{
    if is_digits(value) {
        value_of(value, 131_073) as usize
    } else {
        0
    }
}

fn length_refusal(post: bool, count: usize, value: &[u8]) -> Option<Refusal>
    ensures { result ≡ length_refusal post count value.now }
{
    if count > 1 || (count == 1 && !is_digits(value)) {
        return Some(Refusal::LengthUnread);
    }
    if count == 0 && post {
        return Some(Refusal::LengthMissing);
    }
    if 131_072 < length_of(value) {
        return Some(Refusal::BodyTooLong);
    }
    None
}

/// Why a request is refused by its version, its method and its lines.
pub(crate) fn line_refusal(
    head: &[u8],
    minor: u8,
    method: &[u8],
    lines: &[HeaderSpan],
) -> Option<Refusal>
    requires { All (IsHeaderWithin (length head.now)) lines.now }
    ensures { result ≡ line_refusal minor method.now (map (header_bytes head.now) lines.now) }
{
    if minor == 1 && how_many(head, lines, b"host") != 1 {
        return Some(Refusal::HeadUnread);
    }
    if how_many(head, lines, b"transfer-encoding") > 0 {
        return Some(Refusal::TransferCoded);
    }
    let count = how_many(head, lines, b"content-length");
    let value = first_value(head, lines, b"content-length");
    length_refusal(is_post(method), count, value)
}
