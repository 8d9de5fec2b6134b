ghost use Rattle.std.specs.Prelude.{◌≡◌};
ghost use Rattle.vmv_head.specs.Refusals.{refusal_status, refusal_cause, method_name};

/// A method of a route.
#[derive(Clone, Copy, PartialEq, Eq, Debug, Drop)]
pub enum Method {
    Get,
    Post,
}

/// Why a request isn't handled. The causes are tried in this order.
#[derive(Clone, Copy, PartialEq, Eq, Debug, Drop)]
pub enum Refusal {
    /// The first 8,192 bytes hold no whole head, or the head has more than 64 header lines.
    HeadTooLong,
    /// It isn't the head of a request of HTTP/1.0 or 1.1, or one of HTTP/1.1 without exactly one `Host` line.
    HeadUnread,
    /// It has a `Transfer-Encoding` line.
    TransferCoded,
    /// It has two `Content-Length` lines, or one whose value isn't digits.
    LengthUnread,
    /// A `POST` has no `Content-Length` line.
    LengthMissing,
    /// The body is longer than 131,072 bytes.
    BodyTooLong,
    /// The path has no route.
    NoRoute,
    /// The path's route has this other method.
    OtherMethod { allowed: Method },
    /// It hasn't exactly one `X-Member` line, or the value there isn't a label.
    MemberUnread,
    /// A part of the path isn't a label, or the number of the submission isn't 1 to 10 digits of a u32.
    PartUnread,
    /// The body of a `POST` isn't a JSON object with the fields of the route.
    BodyUnread,
}

impl Method {
    /// The method's name, as requests and answers write it.
    pub fn name(self) -> &'static str
        ensures { result.now ≡ method_name self }
    {
        match self {
            Method::Get => "GET",
            Method::Post => "POST",
        }
    }
}

impl Refusal {
    /// The status of the answer.
    pub fn status(self) -> u16
        ensures { result ≡ refusal_status self }
    {
        match self {
            Refusal::HeadTooLong => 431,
            Refusal::TransferCoded => 501,
            Refusal::LengthMissing => 411,
            Refusal::BodyTooLong => 413,
            Refusal::NoRoute => 404,
            Refusal::OtherMethod { .. } => 405,
            Refusal::HeadUnread => 400,
            Refusal::LengthUnread => 400,
            Refusal::MemberUnread => 400,
            Refusal::PartUnread => 400,
            Refusal::BodyUnread => 400,
        }
    }

    /// The number of the cause, which the answer tells.
    pub fn cause(self) -> u8
        ensures { result ≡ refusal_cause self }
    {
        match self {
            Refusal::HeadTooLong => 30,
            Refusal::HeadUnread => 21,
            Refusal::TransferCoded => 28,
            Refusal::LengthUnread => 22,
            Refusal::LengthMissing => 29,
            Refusal::BodyTooLong => 27,
            Refusal::NoRoute => 25,
            Refusal::OtherMethod { .. } => 26,
            Refusal::MemberUnread => 23,
            Refusal::PartUnread => 31,
            Refusal::BodyUnread => 24,
        }
    }
}
