ghost use Rattle.std.specs.Prelude.{◌≡◌, ◌++◌, [], ◌+◌, ◌≤◌, length, nat_le, if◌then◌else◌, IfOk};
ghost use Rattle.std.specs.Vec.{vec_capacity};

use std::alloc::{AllocError, Global};

/// A room of so many bytes that is reserved when it is made, so that keeping bytes in it takes no memory.
#[derive(Debug, Drop)]
pub(crate) struct Room {
    bytes: Vec<u8>,
    size: usize,
    ghost reserved: { size ≤ vec_capacity bytes },
}

impl Room {
    pub(crate) fn new(alloc: Global, size: usize) -> Result<Room, AllocError>
        ensures empty { IfOk result (λ room. room.bytes.items ≡ []) }
        ensures size { IfOk result (λ room. room.size ≡ size) }
    {
        Ok(Room {
            bytes: Vec::with_capacity(alloc, size)?,
            size,
        })
    }

    pub(crate) fn bytes(&self) -> &[u8]
        ensures { result.now ≡ self.now.bytes.items }
    {
        self.bytes.as_slice()
    }

    // Keeps the piece where it fits beside what is kept, and says whether it does.
    pub(crate) fn keep(&mut self, piece: &[u8]) -> bool
        ensures fits { result ≡ nat_le (length self.old.bytes.items + length piece.now) self.old.size }
        ensures bytes { self.new.bytes.items ≡ (if result then self.old.bytes.items ++ piece.now else self.old.bytes.items) }
        ensures size { self.new.size ≡ self.old.size }
    {
        if self.bytes.len() > self.size || piece.len() > self.size - self.bytes.len() {
            return false;
        }
        self.bytes.extend_from_slice(piece).is_ok()
    }
}
