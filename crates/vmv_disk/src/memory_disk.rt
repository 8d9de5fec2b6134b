ghost use Rattle.std.specs.Prelude.{◌≡◌, ◌++◌, ◌∷◌, [], ◌+◌, ◌⊎◌, ◌≤◌, ◌<◌, ◌↔◌, length, take, drop, min, max, true, false, Some, IfOk, OnOk, OnErr, IsErr, IfSome};
ghost use Rattle.vmv_edge.specs.Outside.{Rose};
ghost use Rattle.vmv_edge.specs.Calls.{AreUnused, IsOneMore, IsSameCall, failed_calls};
ghost use Rattle.vmv_disk.specs.State.{MayLeave};
ghost use Rattle.vmv_disk.specs.Effects.{IsWritten, HasFailed, IsSynced};
ghost use Rattle.vmv_disk.specs.Replay.{fresh, after_calls};
ghost use Rattle.vmv_disk.specs.Forms.{first_bytes, disk_bytes, recorded, recorded_with, works, state_of, disk_calls, room_of, places_of, CallFails, IsPastRoom, IsSameDisk};
ghost use Rattle.vmv_disk.specs.Laws.{replay_may_be_left};

use crate::disk::Disk;
use crate::disk_call::DiskCall;
use crate::kept::Kept;
use std::alloc::{AllocError, Global};
use vmv_edge::{Calls, Failed, Text};

/// A disk in memory, with a room of so many bytes, a record of its calls, for so many of which there is room, and a
/// list of calls that are to fail.
///
/// It is honest. A call past one of its rooms, or a write that begins behind its bytes, is a fault, does nothing and
/// isn't recorded. A write that is to fail writes nothing.
#[derive(Debug, Drop)]
pub struct MemoryDisk {
    kept: Kept,
    calls: Calls,
}

// Answers Ok where the call is done, and there is room for it. Otherwise it has failed, which is counted.
fn answer(calls: &mut Calls, done: bool, has_room: bool) -> Result<(), Failed>
    ensures fails { IsErr result ↔ (done ≡ false) ⊎ (has_room ≡ false) }
    ensures works { OnOk result ((done ≡ true) × (has_room ≡ true)) }
    ensures failed { OnErr result (Rose (failed_calls calls.old) (failed_calls calls.new)) }
    ensures stands { OnOk result (failed_calls calls.new ≡ failed_calls calls.old) }
    ensures later { failed_calls calls.old ≤ failed_calls calls.new }
    ensures same { IsSameCall calls.old calls.new }
{
    if done && has_room {
        return Ok(());
    }
    calls.fail();
    Err(Failed)
}

impl MemoryDisk {
    /// A disk that has these bytes, with room for `size` bytes at least, and for `places` calls, of which those with the
    /// numbers in `failing` fail, the first being 1. It fails where there is no memory for the rooms.
    pub fn new(
        alloc: Global,
        bytes: &[u8],
        size: usize,
        places: usize,
        failing: Vec<u64>,
    ) -> Result<MemoryDisk, AllocError>
        ensures fresh { IfOk result (λ disk. state_of disk ≡ fresh bytes.now) }
        ensures first { IfOk result (λ disk. first_bytes disk ≡ bytes.now) }
        ensures unused { IfOk result (λ disk. recorded disk ≡ []) }
        ensures room { IfOk result (λ disk. room_of disk ≡ max size (length bytes.now)) }
        ensures places { IfOk result (λ disk. places_of disk ≡ places) }
        ensures failing { IfOk result (λ disk. AreUnused (disk_calls disk) failing.items) }
    {
        let kept = Kept::new(alloc, bytes, size, places)?;
        let calls = Calls::new(failing);
        Ok(MemoryDisk { kept, calls })
    }

    /// The bytes that reads give.
    pub fn bytes(&self) -> &[u8]
        ensures { result.now ≡ disk_bytes self.now }
    {
        self.kept.bytes()
    }

    /// The bytes that it began with.
    pub fn first(&self) -> &[u8]
        ensures { result.now ≡ first_bytes self.now }
    {
        self.kept.first()
    }

    /// The calls that were made, in their order, but for those past a room.
    pub fn record(&self) -> &[DiskCall]
        ensures { result.now ≡ recorded self.now }
    {
        self.kept.calls()
    }
}

impl Disk for MemoryDisk {
    ghost told = { λ disk. Some (state_of disk) };

    ghost fault_count = { λ disk. failed_calls (disk_calls disk) };

    fn size(&mut self) -> Result<u64, Failed>
        ensures size { IfOk result (λ n. n ≡ length (state_of self.old).bytes) }
        ensures same { Some (state_of self.new) ≡ Some (state_of self.old) }
        ensures failed { OnErr result (Rose (failed_calls (disk_calls self.old)) (failed_calls (disk_calls self.new))) }
        ensures stands { OnOk result (failed_calls (disk_calls self.new) ≡ failed_calls (disk_calls self.old)) }
        ensures later { failed_calls (disk_calls self.old) ≤ failed_calls (disk_calls self.new) }
        ensures fails { IsErr result ↔ CallFails self.old }
        ensures record { recorded self.new ≡ recorded_with (DiskCall.Size (works self.old)) self.old }
        ensures one_more { IsOneMore (disk_calls self.old) (disk_calls self.new) }
        ensures rooms { IsSameDisk self.old self.new }
    {
        let done = !self.calls.begin();
        let has_room = self.kept.note_size(done);
        answer(&mut self.calls, done, has_room)?;
        Ok(self.kept.bytes().len() as u64)
    }

    fn read_at(&mut self, at: u64, into: &mut [u8]) -> Result<usize, Failed>
        ensures within { IfOk result (λ n. n ≤ length into.new) }
        ensures read { IfOk result (λ n. take n into.new ≡ take n (drop at (state_of self.old).bytes)) }
        ensures some { IfOk result (λ n. 0 < length into.new → at < length (state_of self.old).bytes → 0 < n) }
        ensures same { Some (state_of self.new) ≡ Some (state_of self.old) }
        ensures failed { OnErr result (Rose (failed_calls (disk_calls self.old)) (failed_calls (disk_calls self.new))) }
        ensures stands { OnOk result (failed_calls (disk_calls self.new) ≡ failed_calls (disk_calls self.old)) }
        ensures later { failed_calls (disk_calls self.old) ≤ failed_calls (disk_calls self.new) }
        ensures count { IfOk result (λ n. n ≡ min (length into.new) (length (drop at (disk_bytes self.old)))) }
        ensures fails { IsErr result ↔ CallFails self.old }
        ensures record { recorded self.new ≡ recorded_with (DiskCall.Read at (length into.new) (works self.old)) self.old }
        ensures one_more { IsOneMore (disk_calls self.old) (disk_calls self.new) }
        ensures rooms { IsSameDisk self.old self.new }
    {
        let done = !self.calls.begin();
        let has_room = self.kept.note_read(at, into.len(), done);
        answer(&mut self.calls, done, has_room)?;
        Ok(self.kept.read(at, into))
    }

    fn write_at(&mut self, at: u64, bytes: &[u8]) -> Result<(), Failed>
        ensures written { OnOk result (IsWritten at bytes.now (state_of self.old) (state_of self.new)) }
        ensures torn { OnErr result (HasFailed at (length bytes.now) (state_of self.old) (state_of self.new)) }
        ensures failed { OnErr result (Rose (failed_calls (disk_calls self.old)) (failed_calls (disk_calls self.new))) }
        ensures stands { OnOk result (failed_calls (disk_calls self.new) ≡ failed_calls (disk_calls self.old)) }
        ensures later { failed_calls (disk_calls self.old) ≤ failed_calls (disk_calls self.new) }
        ensures lost { OnErr result (disk_bytes self.new ≡ disk_bytes self.old) }
        ensures fails { IsErr result ↔ CallFails self.old ⊎ IsPastRoom self.old at bytes.now }
        ensures record { ¬ (IsPastRoom self.old at bytes.now) → recorded self.new ≡ recorded_with (DiskCall.Write at bytes.now (works self.old)) self.old }
        ensures refused { IsPastRoom self.old at bytes.now → recorded self.new ≡ recorded self.old }
        ensures one_more { IsOneMore (disk_calls self.old) (disk_calls self.new) }
        ensures rooms { IsSameDisk self.old self.new }
    {
        let done = !self.calls.begin();
        let has_room = self.kept.write(at, bytes, done);
        answer(&mut self.calls, done, has_room)
    }

    fn sync(&mut self) -> Result<(), Failed>
        ensures synced { OnOk result (IsSynced (state_of self.old) (state_of self.new)) }
        ensures same { OnErr result (Some (state_of self.new) ≡ Some (state_of self.old)) }
        ensures failed { OnErr result (Rose (failed_calls (disk_calls self.old)) (failed_calls (disk_calls self.new))) }
        ensures stands { OnOk result (failed_calls (disk_calls self.new) ≡ failed_calls (disk_calls self.old)) }
        ensures later { failed_calls (disk_calls self.old) ≤ failed_calls (disk_calls self.new) }
        ensures fails { IsErr result ↔ CallFails self.old }
        ensures record { recorded self.new ≡ recorded_with (DiskCall.Sync (works self.old)) self.old }
        ensures one_more { IsOneMore (disk_calls self.old) (disk_calls self.new) }
        ensures rooms { IsSameDisk self.old self.new }
    {
        let done = !self.calls.begin();
        let has_room = self.kept.note_sync(done);
        answer(&mut self.calls, done, has_room)
    }

    fn faults(&self) -> u64 {
        self.calls.faults()
    }

    ghost read_may_be_left = { λ disk. replay_may_be_left disk.kept.first disk.kept.log.calls.items };
}
