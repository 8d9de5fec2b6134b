//! The bytes of a disk in memory, and the record of its calls.

ghost use Rattle.std.specs.Prelude.{◌≡◌, ◌++◌, ◌∷◌, [], ◌+◌, ◌≤◌, ◌<◌, ◌↔◌, length, take, drop, min, max, nat_lt, IfOk, IsTrue, if◌then◌else◌};
ghost use Rattle.std.specs.Vec.{vec_capacity};
ghost use Rattle.vmv_disk.specs.Effects.{with_piece};
ghost use Rattle.vmv_disk.specs.Replay.{fresh, after_call, after_calls};

use crate::call_log::CallLog;
use crate::disk_call::DiskCall;
use std::alloc::{AllocError, Global};
use vmv_edge::Text;

/// The bytes that reads give, for so many of which there is room, the bytes at first, and the calls that lead from these
/// to those.
#[derive(Debug, Drop)]
pub(crate) struct Kept {
    first: Text,
    bytes: Vec<u8>,
    log: CallLog,
    ghost reserved: { log.size ≤ vec_capacity bytes },
    ghost within: { length bytes.items ≤ log.size },
    ghost replayed: { (after_calls (fresh first) log.calls.items).bytes ≡ bytes.items },
}

// Puts a piece at a place, where its bytes are reserved.
fn put(bytes: &mut Vec<u8>, at: usize, piece: &[u8])
    requires behind { at ≤ length bytes.old.items }
    requires room { at + length piece.now ≤ vec_capacity bytes.old }
    ensures put { bytes.new.items ≡ with_piece at piece.now bytes.old.items }
    ensures reserved { vec_capacity bytes.old ≤ vec_capacity bytes.new }
{
    let over = piece.len().min(bytes.len() - at);
    bytes[at..at + over].copy_from_slice(&piece[..over]);
    let _ = bytes.extend_from_slice(&piece[over..]);
}

// Puts a piece at a place, where that is done.
fn put_done(bytes: &mut Vec<u8>, at: usize, piece: &[u8], done: bool)
    requires behind { at ≤ length bytes.old.items }
    requires room { at + length piece.now ≤ vec_capacity bytes.old }
    ensures put { bytes.new.items ≡ (if done then with_piece at piece.now bytes.old.items else bytes.old.items) }
    ensures reserved { vec_capacity bytes.old ≤ vec_capacity bytes.new }
{
    if done {
        put(bytes, at, piece);
    }
}

// Copies what there is from a place on to the front of a slice, and says how much.
fn copy_from(bytes: &[u8], at: usize, into: &mut [u8]) -> usize
    ensures count { result ≡ min (length into.new) (length (drop at bytes.now)) }
    ensures copied { take result into.new ≡ take result (drop at bytes.now) }
{
    if at >= bytes.len() {
        return 0;
    }
    let n = into.len().min(bytes.len() - at);
    into[..n].copy_from_slice(&bytes[at..at + n]);
    n
}

impl Kept {
    pub(crate) fn new(
        alloc: Global,
        bytes: &[u8],
        size: usize,
        places: usize,
    ) -> Result<Kept, AllocError>
        ensures first { IfOk result (λ kept. kept.first ≡ bytes.now) }
        ensures unused { IfOk result (λ kept. kept.log.calls.items ≡ []) }
        ensures room { IfOk result (λ kept. kept.log.size ≡ max size (length bytes.now)) }
        ensures places { IfOk result (λ kept. kept.log.places ≡ places) }
    {
        let size = size.max(bytes.len());
        let first = Text::from_slice(alloc, bytes)?;
        let mut copy = Vec::with_capacity(alloc, size)?;
        copy.extend_from_slice(bytes)?;
        let log = CallLog::new(alloc, places, size)?;
        Ok(Kept {
            first,
            bytes: copy,
            log,
        })
    }

    pub(crate) fn bytes(&self) -> &[u8]
        ensures now { result.now ≡ self.now.bytes.items }
        ensures replayed { result.now ≡ (after_calls (fresh self.now.first) self.now.log.calls.items).bytes }
    {
        self.bytes.as_slice()
    }

    pub(crate) fn first(&self) -> &[u8]
        ensures { result.now ≡ self.now.first }
    {
        self.first.bytes()
    }

    pub(crate) fn calls(&self) -> &[DiskCall]
        ensures { result.now ≡ self.now.log.calls.items }
    {
        self.log.calls()
    }

    // Whether a write of so many bytes begins among the bytes or at their end, and has room.
    fn fits(&self, at: u64, len: usize) -> bool
        ensures { IsTrue result ↔ ((at ≤ length self.now.bytes.items) × (at + len ≤ self.now.log.size)) }
    {
        let at = at as usize;
        at <= self.bytes.len() && len <= self.log.size() - at
    }

    // Copies what there is from a place on to the front of a slice, and says how much.
    pub(crate) fn read(&self, at: u64, into: &mut [u8]) -> usize
        ensures count { result ≡ min (length into.new) (length (drop at self.now.bytes.items)) }
        ensures copied { take result into.new ≡ take result (drop at self.now.bytes.items) }
        ensures replayed { take result into.new ≡ take result (drop at (after_calls (fresh self.now.first) self.now.log.calls.items).bytes) }
    {
        copy_from(self.bytes.as_slice(), at as usize, into)
    }

    // Records that the size was asked for, and says whether there is room to.
    pub(crate) fn note_size(&mut self, done: bool) -> bool
        ensures room { result ≡ nat_lt (length self.old.log.calls.items) self.old.log.places }
        ensures calls { self.new.log.calls.items ≡ (if result then self.old.log.calls.items ++ DiskCall.Size done ∷ [] else self.old.log.calls.items) }
        ensures state { after_calls (fresh self.new.first) self.new.log.calls.items ≡ after_calls (fresh self.old.first) self.old.log.calls.items }
        ensures bytes { self.new.bytes.items ≡ self.old.bytes.items }
        ensures first { self.new.first ≡ self.old.first }
        ensures places { self.new.log.places ≡ self.old.log.places }
        ensures size { self.new.log.size ≡ self.old.log.size }
    {
        if !self.log.has_room() {
            return false;
        }
        self.log.note(DiskCall::Size { done });
        true
    }

    // Records a read, and says whether there is room to.
    pub(crate) fn note_read(&mut self, at: u64, most: usize, done: bool) -> bool
        ensures room { result ≡ nat_lt (length self.old.log.calls.items) self.old.log.places }
        ensures calls { self.new.log.calls.items ≡ (if result then self.old.log.calls.items ++ DiskCall.Read at most done ∷ [] else self.old.log.calls.items) }
        ensures state { after_calls (fresh self.new.first) self.new.log.calls.items ≡ after_calls (fresh self.old.first) self.old.log.calls.items }
        ensures bytes { self.new.bytes.items ≡ self.old.bytes.items }
        ensures first { self.new.first ≡ self.old.first }
        ensures places { self.new.log.places ≡ self.old.log.places }
        ensures size { self.new.log.size ≡ self.old.log.size }
    {
        if !self.log.has_room() {
            return false;
        }
        self.log.note(DiskCall::Read { at, most, done });
        true
    }

    // Records a sync, and says whether there is room to.
    pub(crate) fn note_sync(&mut self, done: bool) -> bool
        ensures room { result ≡ nat_lt (length self.old.log.calls.items) self.old.log.places }
        ensures calls { self.new.log.calls.items ≡ (if result then self.old.log.calls.items ++ DiskCall.Sync done ∷ [] else self.old.log.calls.items) }
        ensures state { after_calls (fresh self.new.first) self.new.log.calls.items ≡ (if result then after_call (after_calls (fresh self.old.first) self.old.log.calls.items) (DiskCall.Sync done) else after_calls (fresh self.old.first) self.old.log.calls.items) }
        ensures bytes { self.new.bytes.items ≡ self.old.bytes.items }
        ensures first { self.new.first ≡ self.old.first }
        ensures places { self.new.log.places ≡ self.old.log.places }
        ensures size { self.new.log.size ≡ self.old.log.size }
    {
        if !self.log.has_room() {
            return false;
        }
        self.log.note(DiskCall::Sync { done });
        true
    }

    // Records a write, and makes it where it is done. It says whether there is room for both.
    pub(crate) fn write(&mut self, at: u64, piece: &[u8], done: bool) -> bool
        ensures room { IsTrue result ↔ ((length self.old.log.calls.items < self.old.log.places) × (at ≤ length self.old.bytes.items) × (at + length piece.now ≤ self.old.log.size)) }
        ensures calls { self.new.log.calls.items ≡ (if result then self.old.log.calls.items ++ DiskCall.Write at piece.now done ∷ [] else self.old.log.calls.items) }
        ensures bytes { self.new.bytes.items ≡ (if result then (if done then with_piece at piece.now self.old.bytes.items else self.old.bytes.items) else self.old.bytes.items) }
        ensures state { after_calls (fresh self.new.first) self.new.log.calls.items ≡ (if result then after_call (after_calls (fresh self.old.first) self.old.log.calls.items) (DiskCall.Write at piece.now done) else after_calls (fresh self.old.first) self.old.log.calls.items) }
        ensures first { self.new.first ≡ self.old.first }
        ensures places { self.new.log.places ≡ self.old.log.places }
        ensures size { self.new.log.size ≡ self.old.log.size }
    {
        if !self.log.has_room() {
            return false;
        }
        if !self.fits(at, piece.len()) {
            return false;
        }
        self.log.note_write(at, piece, done);
        put_done(&mut self.bytes, at as usize, piece, done);
        true
    }
}
