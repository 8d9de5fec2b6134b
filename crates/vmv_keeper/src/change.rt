ghost use Rattle.std.specs.Prelude.{◌≡◌, IfOk};

use crate::act::Act;
use crate::label::Label;
use crate::reply::Reply;
use std::alloc::{AllocError, Global};

/// An act under a caller's id, with the reply that is kept for it. An accepted submission was judged against
/// the version of the number `against`, which is 0 for every other act.
#[derive(Debug, Drop)]
pub struct Change {
    pub caller: Label,
    pub id: Label,
    pub act: Act,
    pub reply: Reply,
    pub against: u32,
}

/// An act that was done, and its reply.
#[derive(Debug, Drop)]
pub struct Kept {
    pub act: Act,
    pub reply: Reply,
}

impl Change {
    /// A second change that is the same. It fails where there is no memory.
    pub fn copy(&self, alloc: Global) -> Result<Change, AllocError>
        ensures { IfOk result (λ change. change ≡ self.now) }
    {
        Ok(Change {
            caller: self.caller,
            id: self.id,
            act: self.act.copy(alloc)?,
            reply: self.reply.copy(alloc)?,
            against: self.against,
        })
    }
}

impl Kept {
    /// A second one that is the same. It fails where there is no memory.
    pub fn copy(&self, alloc: Global) -> Result<Kept, AllocError>
        ensures { IfOk result (λ kept. kept ≡ self.now) }
    {
        Ok(Kept {
            act: self.act.copy(alloc)?,
            reply: self.reply.copy(alloc)?,
        })
    }
}
