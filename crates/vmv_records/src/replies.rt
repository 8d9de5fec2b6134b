//! Replies of acts that were done as bytes.

ghost use Rattle.std.specs.Prelude.{◌≡◌, ◌∷◌, Some, IfSome};
ghost use Rattle.vmv_keeper.specs.declared.reply.Reply.{Reply};
ghost use Rattle.vmv_records.specs.Spelling.{number_bytes, reply_bytes, IsReply};
ghost use Rattle.vmv_records.specs.Reading.{reply_of, reply_in};

use crate::fields::number_in;
use vmv_keeper::Reply;

fn lettered(letter: u8, number: u32) -> [u8; 5]
    ensures { result ≡ letter ∷ number_bytes number }
{
    let [a, b, c, d] = number.to_be_bytes();
    [letter, a, b, c, d]
}

/// The bytes that are kept of a reply, where it is that of an act that was done.
pub fn write_reply(reply: &Reply) -> Option<[u8; 5]>
    ensures { result ≡ reply_bytes reply.now }
{
    match reply {
        Reply::Opened { version } => Some(lettered(b'o', *version)),
        Reply::Members { count } => Some(lettered(b'm', *count)),
        Reply::Submitted { submission } => Some(lettered(b's', *submission)),
        Reply::Withdrawn { submission } => Some(lettered(b'w', *submission)),
        Reply::Accepted { version } => Some(lettered(b'a', *version)),
        Reply::Waived { version } => Some(lettered(b'v', *version)),
        _ => None,
    }
}

fn reply_of(letter: u8, number: u32) -> Option<Reply>
    ensures { result ≡ reply_of letter number }
{
    match letter {
        b'o' => Some(Reply::Opened { version: number }),
        b'm' => Some(Reply::Members { count: number }),
        b's' => Some(Reply::Submitted { submission: number }),
        b'w' => Some(Reply::Withdrawn { submission: number }),
        b'a' => Some(Reply::Accepted { version: number }),
        b'v' => Some(Reply::Waived { version: number }),
        _ => None,
    }
}

#[tactic(auto, unfolding(crate::specs::Reading::reply_in))]
fn reply_in(bytes: &[u8]) -> Option<Reply>
    ensures { result ≡ reply_in bytes.now }
{
    let [letter, rest @ ..] = bytes else {
        return None;
    };
    let number = number_in(rest)?;
    reply_of(*letter, number)
}

/// The reply that these bytes are kept of, where they are of one.
pub fn read_reply(bytes: &[u8]) -> Option<Reply>
    ensures found { IfSome result (λ reply. reply_bytes reply ≡ Some bytes.now) }
    ensures only { (reply : Reply) → IsReply reply → reply_bytes reply ≡ Some bytes.now → result ≡ Some reply }
{
    reply_in(bytes)
}
