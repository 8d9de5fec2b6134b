ghost use Rattle.std.specs.Prelude.{◌≡◌, ◌++◌, IfOk};
ghost use Rattle.std.specs.String.{string_bytes};
ghost use Rattle.http.specs.StatusCode.{IsStatusCode};
ghost use Rattle.vmv_request.specs.Answers.{phrase, answer_head, answer_text, allow_line, refusal_text, reply_text};

use crate::replies::{cause_body, reply_body, reply_status};
use http::StatusCode;
use std::alloc::{AllocError, Global};
use vmv_edge::Text;
use vmv_head::Refusal;
use vmv_keeper::Reply;

/// The phrase that stands behind a status.
fn phrase(status: u16) -> &'static str
    requires { IsStatusCode status }
    ensures { result.now ≡ phrase status }
{
    match StatusCode::from_u16(status) {
        Ok(code) => code.canonical_reason().unwrap_or(""),
        Err(_) => "",
    }
}

/// The head of an answer whose body has this length, where one more line may stand behind the length.
fn answer_head(alloc: Global, status: u16, more: &str, len: usize) -> Result<String, AllocError>
    requires { IsStatusCode status }
    ensures { IfOk result (λ text. string_bytes text ≡ answer_head status more.now len) }
{
    let phrase = phrase(status);
    format!(in alloc;
        "HTTP/1.1 {status} {phrase}\r\nContent-Type: application/json\r\nContent-Length: {len}\r\n{more}Connection: close\r\n\r\n"
    )
}

fn answer_text(alloc: Global, status: u16, more: &str, body: &Text) -> Result<Text, AllocError>
    requires { IsStatusCode status }
    ensures { IfOk result (λ text. text ≡ answer_text status more.now body.now) }
{
    let head = answer_head(alloc, status, more, body.len())?;
    let mut text = head.into_bytes();
    text.extend_from_slice(body.bytes())?;
    Ok(Text::from_vec(text))
}

/// The line that tells the method of a route, where a request had another.
fn allow_line(alloc: Global, refusal: Refusal) -> Result<String, AllocError>
    ensures { IfOk result (λ line. string_bytes line ≡ allow_line refusal) }
{
    match refusal {
        Refusal::OtherMethod { allowed } => {
            let name = allowed.name();
            format!(in alloc; "Allow: {name}\r\n")
        }
        _ => Ok(String::new(alloc)),
    }
}

/// The whole answer to a request that is refused. It fails for want of memory alone.
pub fn refusal_text(alloc: Global, refusal: Refusal) -> Result<Text, AllocError>
    ensures { IfOk result (λ text. text ≡ refusal_text refusal) }
{
    let line = allow_line(alloc, refusal)?;
    let body = cause_body(alloc, refusal.cause())?;
    answer_text(alloc, refusal.status(), line.as_str(), &body)
}

/// The whole answer that tells a desk's reply. It fails for want of memory alone.
pub fn reply_text(alloc: Global, reply: &Reply) -> Result<Text, AllocError>
    ensures { IfOk result (λ text. text ≡ reply_text reply.now) }
{
    let body = reply_body(alloc, reply)?;
    answer_text(alloc, reply_status(reply), "", &body)
}
