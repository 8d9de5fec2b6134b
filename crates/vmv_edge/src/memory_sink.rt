ghost use Rattle.std.specs.Prelude.{◌≡◌, ◌++◌, [], ◌+◌, ◌⊎◌, ◌<◌, ◌≤◌, ◌↔◌, length, take, Some, Ok, IfOk, OnErr, IsErr, IfSome};
ghost use Rattle.std.specs.Option.{option_copied};
ghost use Rattle.vmv_edge.specs.Outside.{Rose, Appended, AppendedFront, TookNothing, TookSome};
ghost use Rattle.vmv_edge.specs.Calls.{AreUnused, IsOneMore, failed_calls};
ghost use Rattle.vmv_edge.specs.Forms.{kept, writes, size_of, most_of, share, WriteFails, shown, whole_size_of};

use crate::calls::Calls;
use crate::room::Room;
use crate::sink::{Failed, Sink};
use std::alloc::{AllocError, Global};

/// A sink in memory, which keeps what it takes in a room of so many bytes, with a list of writes that are to fail.
///
/// A write past the room is a fault and takes nothing.
#[derive(Debug, Drop)]
pub struct MemorySink {
    room: Room,
    most: usize,
    calls: Calls,
}

impl MemorySink {
    /// A sink of so much room, whose writes with these numbers fail, the first being 1.
    ///
    /// Each write takes at most `most` bytes: with 0, each takes nothing, which is a fault. It fails where
    /// there is no memory for the room.
    pub fn new(
        alloc: Global,
        size: usize,
        most: usize,
        failing: Vec<u64>,
    ) -> Result<MemorySink, AllocError>
        ensures empty { IfOk result (λ sink. kept sink ≡ []) }
        ensures size { IfOk result (λ sink. size_of sink ≡ size) }
        ensures most { IfOk result (λ sink. most_of sink ≡ most) }
        ensures unused { IfOk result (λ sink. AreUnused (writes sink) failing.items) }
    {
        Ok(MemorySink {
            room: Room::new(alloc, size)?,
            most,
            calls: Calls::new(failing),
        })
    }

    /// What it has taken.
    pub fn bytes(&self) -> &[u8]
        ensures { result.now ≡ kept self.now }
    {
        self.room.bytes()
    }
}

impl Sink for MemorySink {
    ghost taken = { λ sink. Some (kept sink) };

    ghost fault_count = { λ sink. failed_calls (writes sink) };

    fn write(&mut self, piece: &[u8]) -> Result<usize, Failed>
        ensures within { IfOk result (λ n. n ≤ length piece.now) }
        ensures appended { IfOk result (λ n. kept self.new ≡ kept self.old ++ take n piece.now) }
        ensures prefix { OnErr result (kept self.new ≡ kept self.old) }
        ensures failed { OnErr result (Rose (failed_calls (writes self.old)) (failed_calls (writes self.new))) }
        ensures nothing { TookNothing result (length piece.now) → Rose (failed_calls (writes self.old)) (failed_calls (writes self.new)) }
        ensures stands { TookSome result (length piece.now) → failed_calls (writes self.new) ≡ failed_calls (writes self.old) }
        ensures later { failed_calls (writes self.old) ≤ failed_calls (writes self.new) }
        ensures fails { IsErr result ↔ WriteFails self.old piece.now }
        ensures share { IfOk result (λ n. n ≡ share self.old piece.now) }
        ensures counted { IsOneMore (writes self.old) (writes self.new) }
        ensures size { size_of self.new ≡ size_of self.old }
        ensures most { most_of self.new ≡ most_of self.old }
    {
        let fails = self.calls.begin();
        let len = piece.len().min(self.most);
        if fails || !self.room.keep(&piece[..len]) {
            self.calls.fail();
            return Err(Failed);
        }
        if len == 0 && !piece.is_empty() {
            self.calls.fail();
        }
        Ok(len)
    }

    fn faults(&self) -> u64 {
        self.calls.faults()
    }
}

/// A sink in memory that never fails, and keeps what it takes in a room of so many bytes.
///
/// From a write past the room on it keeps nothing more, and doesn't tell its bytes.
#[derive(Debug, Drop)]
pub struct FaultlessSink {
    room: Room,
    full: bool,
}

impl FaultlessSink {
    /// A sink of so much room. It fails where there is no memory for the room.
    pub fn new(alloc: Global, size: usize) -> Result<FaultlessSink, AllocError>
        ensures empty { IfOk result (λ sink. shown sink ≡ Some []) }
        ensures size { IfOk result (λ sink. whole_size_of sink ≡ size) }
    {
        Ok(FaultlessSink {
            room: Room::new(alloc, size)?,
            full: false,
        })
    }

    /// What it has taken, if it all fitted into the room.
    pub fn bytes(&self) -> Option<&[u8]>
        ensures { option_copied result ≡ shown self.now }
    {
        if self.full {
            return None;
        }
        Some(self.room.bytes())
    }
}

impl Sink for FaultlessSink {
    ghost taken = { shown };

    ghost fault_count = { λ _. 0 };

    fn write(&mut self, piece: &[u8]) -> Result<usize, Failed>
        ensures all { result ≡ Ok (length piece.now) }
        ensures appended { Appended (shown self.old) piece.now (shown self.new) }
        ensures told { IfSome (shown self.old) (λ bytes. length bytes + length piece.now ≤ whole_size_of self.old → shown self.new ≡ Some (bytes ++ piece.now)) }
        ensures size { whole_size_of self.new ≡ whole_size_of self.old }
    {
        if !self.full {
            self.full = !self.room.keep(piece);
        }
        Ok(piece.len())
    }

    fn faults(&self) -> u64 {
        0
    }
}
