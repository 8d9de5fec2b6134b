ghost use Rattle.std.specs.Prelude.{◌≡◌, ◌++◌, [], ◌+◌, ◌⊎◌, ◌<◌, ◌≤◌, ◌↔◌, length, take, min, Some, Ok, IfOk, OnOk, OnErr, IsErr, IfSome, IsTrue};
ghost use Rattle.std.specs.Option.{option_copied};
ghost use Rattle.vmv_edge.specs.Outside.{Rose, Appended, TookNothing, TookSome};
ghost use Rattle.vmv_edge.specs.Calls.{AreUnused, IsOneMore, failed_calls, is_to_fail};
ghost use Rattle.vmv_edge.specs.Forms.{unread, sent, link_calls, sent_size_of, call_size_of, read_share, write_share, SendFails, whole_unread, whole_sent, whole_sent_size_of};

use crate::calls::Calls;
use crate::link::Link;
use crate::room::Room;
use crate::sink::Failed;
use crate::stock::Stock;
use std::alloc::{AllocError, Global};

/// A link in memory, which gives an input and keeps what is written in a room of so many bytes, with a list of calls that
/// are to fail.
///
/// A write past the room is a fault and takes nothing.
#[derive(Debug, Drop)]
pub struct MemoryLink {
    stock: Stock,
    room: Room,
    most: usize,
    calls: Calls,
}

impl MemoryLink {
    /// A link with this input and so much room, whose reads and writes with these numbers fail, both counted together, the
    /// first being 1.
    ///
    /// Each call reads or writes at most `most` bytes: with 0, a read gives one byte, and a write takes nothing, which is a
    /// fault. It fails where there is no memory for the room.
    pub fn new(
        alloc: Global,
        input: Vec<u8>,
        size: usize,
        most: usize,
        failing: Vec<u64>,
    ) -> Result<MemoryLink, AllocError>
        ensures input { IfOk result (λ link. unread link ≡ input.items) }
        ensures empty { IfOk result (λ link. sent link ≡ []) }
        ensures size { IfOk result (λ link. sent_size_of link ≡ size) }
        ensures most { IfOk result (λ link. call_size_of link ≡ most) }
        ensures unused { IfOk result (λ link. AreUnused (link_calls link) failing.items) }
    {
        Ok(MemoryLink {
            stock: Stock::new(input),
            room: Room::new(alloc, size)?,
            most,
            calls: Calls::new(failing),
        })
    }

    /// What was written to it.
    pub fn bytes(&self) -> &[u8]
        ensures { result.now ≡ sent self.now }
    {
        self.room.bytes()
    }

    /// How many bytes are still to be read.
    pub fn left(&self) -> usize
        ensures { result ≡ length (unread self.now) }
    {
        self.stock.len()
    }
}

impl Link for MemoryLink {
    ghost input = { λ link. Some (unread link) };

    ghost written = { λ link. Some (sent link) };

    ghost fault_count = { λ link. failed_calls (link_calls link) };

    fn read(&mut self, into: &mut [u8]) -> Result<usize, Failed>
        ensures within { IfOk result (λ n. n ≤ length into.new) }
        ensures read { IfOk result (λ n. unread self.old ≡ take n into.new ++ unread self.new) }
        ensures end { result ≡ Ok 0 → 0 < length into.new → unread self.old ≡ [] }
        ensures failed { OnErr result (Rose (failed_calls (link_calls self.old)) (failed_calls (link_calls self.new))) }
        ensures stands { OnOk result (failed_calls (link_calls self.new) ≡ failed_calls (link_calls self.old)) }
        ensures later { failed_calls (link_calls self.old) ≤ failed_calls (link_calls self.new) }
        ensures kept { Some (sent self.new) ≡ Some (sent self.old) }
        ensures fails { IsErr result ↔ IsTrue (is_to_fail (link_calls self.old)) }
        ensures lost { OnErr result (unread self.new ≡ unread self.old) }
        ensures share { IfOk result (λ n. n ≡ read_share self.old (length into.new)) }
        ensures counted { IsOneMore (link_calls self.old) (link_calls self.new) }
        ensures size { sent_size_of self.new ≡ sent_size_of self.old }
        ensures most { call_size_of self.new ≡ call_size_of self.old }
    {
        if self.calls.begin() {
            self.calls.fail();
            return Err(Failed);
        }
        Ok(self.stock.give(into, self.most))
    }

    fn write(&mut self, piece: &[u8]) -> Result<usize, Failed>
        ensures within { IfOk result (λ n. n ≤ length piece.now) }
        ensures appended { IfOk result (λ n. sent self.new ≡ sent self.old ++ take n piece.now) }
        ensures prefix { OnErr result (sent self.new ≡ sent self.old) }
        ensures failed { OnErr result (Rose (failed_calls (link_calls self.old)) (failed_calls (link_calls self.new))) }
        ensures nothing { TookNothing result (length piece.now) → Rose (failed_calls (link_calls self.old)) (failed_calls (link_calls self.new)) }
        ensures stands { TookSome result (length piece.now) → failed_calls (link_calls self.new) ≡ failed_calls (link_calls self.old) }
        ensures later { failed_calls (link_calls self.old) ≤ failed_calls (link_calls self.new) }
        ensures kept { Some (unread self.new) ≡ Some (unread self.old) }
        ensures fails { IsErr result ↔ SendFails self.old piece.now }
        ensures share { IfOk result (λ n. n ≡ write_share self.old piece.now) }
        ensures counted { IsOneMore (link_calls self.old) (link_calls self.new) }
        ensures size { sent_size_of self.new ≡ sent_size_of self.old }
        ensures most { call_size_of self.new ≡ call_size_of self.old }
    {
        let fails = self.calls.begin();
        let len = piece.len().min(self.most);
        if fails || !self.room.keep(&piece[..len]) {
            self.calls.fail();
            return Err(Failed);
        }
        if len == 0 && !piece.is_empty() {
            self.calls.fail();
        }
        Ok(len)
    }

    fn faults(&self) -> u64 {
        self.calls.faults()
    }
}

/// A link in memory that never fails, which gives an input and keeps what is written in a room of so many bytes.
///
/// From a write past the room on it keeps nothing more, and doesn't tell what was written.
#[derive(Debug, Drop)]
pub struct FaultlessLink {
    stock: Stock,
    room: Room,
    full: bool,
}

impl FaultlessLink {
    /// A link with this input and so much room. It fails where there is no memory for the room.
    pub fn new(alloc: Global, input: Vec<u8>, size: usize) -> Result<FaultlessLink, AllocError>
        ensures input { IfOk result (λ link. whole_unread link ≡ input.items) }
        ensures empty { IfOk result (λ link. whole_sent link ≡ Some []) }
        ensures size { IfOk result (λ link. whole_sent_size_of link ≡ size) }
    {
        Ok(FaultlessLink {
            stock: Stock::new(input),
            room: Room::new(alloc, size)?,
            full: false,
        })
    }

    /// What was written to it, if it all fitted into the room.
    pub fn bytes(&self) -> Option<&[u8]>
        ensures { option_copied result ≡ whole_sent self.now }
    {
        if self.full {
            return None;
        }
        Some(self.room.bytes())
    }
}

impl Link for FaultlessLink {
    ghost input = { λ link. Some (whole_unread link) };

    ghost written = { whole_sent };

    ghost fault_count = { λ _. 0 };

    fn read(&mut self, into: &mut [u8]) -> Result<usize, Failed>
        ensures all { result ≡ Ok (min (length into.new) (length (whole_unread self.old))) }
        ensures read { IfOk result (λ n. whole_unread self.old ≡ take n into.new ++ whole_unread self.new) }
        ensures kept { whole_sent self.new ≡ whole_sent self.old }
        ensures size { whole_sent_size_of self.new ≡ whole_sent_size_of self.old }
    {
        let most = into.len();
        Ok(self.stock.give(into, most))
    }

    fn write(&mut self, piece: &[u8]) -> Result<usize, Failed>
        ensures all { result ≡ Ok (length piece.now) }
        ensures appended { Appended (whole_sent self.old) piece.now (whole_sent self.new) }
        ensures told { IfSome (whole_sent self.old) (λ bytes. length bytes + length piece.now ≤ whole_sent_size_of self.old → whole_sent self.new ≡ Some (bytes ++ piece.now)) }
        ensures kept { whole_unread self.new ≡ whole_unread self.old }
        ensures size { whole_sent_size_of self.new ≡ whole_sent_size_of self.old }
    {
        if !self.full {
            self.full = !self.room.keep(piece);
        }
        Ok(piece.len())
    }

    fn faults(&self) -> u64 {
        0
    }
}
