//! The record of a disk's calls.

ghost use Rattle.std.specs.Prelude.{◌≡◌, ◌++◌, ◌∷◌, [], ◌+◌, ◌≤◌, ◌<◌, length, nat_lt, IfOk, OnOk, OnErr};
ghost use Rattle.std.specs.Vec.{vec_capacity};
ghost use Rattle.std.specs.List.{All};
ghost use Rattle.vmv_disk.specs.Rooms.{IsRoom};

use crate::disk_call::DiskCall;
use std::alloc::{AllocError, Global};
use vmv_edge::Text;

/// Calls in their order, for so many of which there is room, each with so many bytes at most.
#[derive(Debug, Drop)]
pub(crate) struct CallLog {
    calls: Vec<DiskCall>,
    places: usize,
    size: usize,
    spare: Vec<Vec<u8>>,
    ghost reserved: { places ≤ vec_capacity calls },
    ghost enough: { places ≤ length calls.items + length spare.items },
    ghost empty: { All (IsRoom size) spare.items },
}

// So many rooms, each for so many bytes.
fn rooms(alloc: Global, places: usize, size: usize) -> Result<Vec<Vec<u8>>, AllocError>
    ensures count { IfOk result (λ rooms. length rooms.items ≡ places) }
    ensures empty { IfOk result (λ rooms. All (IsRoom size) rooms.items) }
{
    let mut rooms = Vec::with_capacity(alloc, places)?;
    for _ in 0..places {
        rooms.push(Vec::with_capacity(alloc, size)?)?;
    }
    Ok(rooms)
}

// Fills a room with these bytes.
fn filled(room: Vec<u8>, bytes: &[u8]) -> Text
    requires { IsRoom (length bytes.now) room }
    ensures { result ≡ bytes.now }
{
    let mut room = room;
    let _ = room.extend_from_slice(bytes);
    Text::from_vec(room)
}

impl CallLog {
    pub(crate) fn new(alloc: Global, places: usize, size: usize) -> Result<CallLog, AllocError>
        ensures calls { IfOk result (λ log. log.calls.items ≡ []) }
        ensures places { IfOk result (λ log. log.places ≡ places) }
        ensures size { IfOk result (λ log. log.size ≡ size) }
    {
        Ok(CallLog {
            calls: Vec::with_capacity(alloc, places)?,
            places,
            size,
            spare: rooms(alloc, places, size)?,
        })
    }

    pub(crate) fn calls(&self) -> &[DiskCall]
        ensures { result.now ≡ self.now.calls.items }
    {
        self.calls.as_slice()
    }

    // How many bytes a call may have.
    pub(crate) fn size(&self) -> usize
        ensures { result ≡ self.now.size }
    {
        self.size
    }

    // Whether there is room for one more call.
    pub(crate) fn has_room(&self) -> bool
        ensures { result ≡ nat_lt (length self.now.calls.items) self.now.places }
    {
        self.calls.len() < self.places
    }

    // Records a call.
    pub(crate) fn note(&mut self, call: DiskCall)
        requires { length self.old.calls.items < self.old.places }
        ensures calls { self.new.calls.items ≡ self.old.calls.items ++ call ∷ [] }
        ensures places { self.new.places ≡ self.old.places }
        ensures size { self.new.size ≡ self.old.size }
    {
        let _ = self.calls.push(call);
    }

    // Records a write.
    pub(crate) fn note_write(&mut self, at: u64, bytes: &[u8], done: bool)
        requires room { length self.old.calls.items < self.old.places }
        requires few { length bytes.now ≤ self.old.size }
        ensures calls { self.new.calls.items ≡ self.old.calls.items ++ DiskCall.Write at bytes.now done ∷ [] }
        ensures places { self.new.places ≡ self.old.places }
        ensures size { self.new.size ≡ self.old.size }
    {
        let Some(room) = self.spare.pop() else {
            return;
        };
        let bytes = filled(room, bytes);
        let _ = self.calls.push(DiskCall::Write { at, bytes, done });
    }
}
