use vmv_keeper::Reply;

/// What an act that is done leaves: its reply, and the number of the version that its submission was judged
/// against (0 where none was).
#[derive(Debug, Drop)]
pub struct Effect {
    pub reply: Reply,
    pub against: u32,
}

/// What comes of an act: it is done, or it isn't, each with its reply.
#[derive(Debug, Drop)]
pub enum Outcome {
    Done { effect: Effect },
    NotDone { reply: Reply },
}
