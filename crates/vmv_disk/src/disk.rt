ghost use Rattle.std.specs.Prelude.{◌≡◌, ◌≤◌, ◌<◌, ℕ, length, take, drop, Option, IfSome, IfOk, OnOk, OnErr};
ghost use Rattle.vmv_edge.specs.Outside.{Rose};
ghost use Rattle.vmv_disk.specs.State.{DiskState, MayLeave};
ghost use Rattle.vmv_disk.specs.Effects.{IsWritten, HasFailed, IsSynced, Goes};

use vmv_edge::Failed;

/// Bytes that are written at places, and that a crash may leave other than they are read until they are synced.
///
/// No call takes memory. A call that answers `Failed` has raised the count of faults, and no other answer raises it.
pub trait Disk {
    // what is told of an honest disk, and nothing of any other
    ghost told: { Self → Option DiskState };

    // how many calls have failed
    ghost fault_count: { Self → ℕ };

    /// How many bytes there are.
    fn size(&mut self) -> Result<u64, Failed>
        ensures size { IfOk result (λ n. IfSome (told self.old) (λ disk. n ≡ length disk.bytes)) }
        ensures same { told self.new ≡ told self.old }
        ensures failed { OnErr result (Rose (fault_count self.old) (fault_count self.new)) }
        ensures stands { OnOk result (fault_count self.new ≡ fault_count self.old) }
        ensures later { fault_count self.old ≤ fault_count self.new };

    /// Reads the bytes from the place on into the front of `into`, and says how many. Below the size it reads at least
    /// one where there is room.
    fn read_at(&mut self, at: u64, into: &mut [u8]) -> Result<usize, Failed>
        ensures within { IfOk result (λ n. n ≤ length into.new) }
        ensures read { IfOk result (λ n. IfSome (told self.old) (λ disk. take n into.new ≡ take n (drop at disk.bytes))) }
        ensures some { IfOk result (λ n. IfSome (told self.old) (λ disk. 0 < length into.new → at < length disk.bytes → 0 < n)) }
        ensures same { told self.new ≡ told self.old }
        ensures failed { OnErr result (Rose (fault_count self.old) (fault_count self.new)) }
        ensures stands { OnOk result (fault_count self.new ≡ fault_count self.old) }
        ensures later { fault_count self.old ≤ fault_count self.new };

    /// Writes the bytes at the place. Until the next sync that is Ok, a crash may leave anything where they were to be
    /// written, whether or not this call failed.
    fn write_at(&mut self, at: u64, bytes: &[u8]) -> Result<(), Failed>
        ensures written { OnOk result (Goes (IsWritten at bytes.now) (told self.old) (told self.new)) }
        ensures torn { OnErr result (Goes (HasFailed at (length bytes.now)) (told self.old) (told self.new)) }
        ensures failed { OnErr result (Rose (fault_count self.old) (fault_count self.new)) }
        ensures stands { OnOk result (fault_count self.new ≡ fault_count self.old) }
        ensures later { fault_count self.old ≤ fault_count self.new };

    /// From its Ok on, a crash leaves what is read.
    fn sync(&mut self) -> Result<(), Failed>
        ensures synced { OnOk result (Goes IsSynced (told self.old) (told self.new)) }
        ensures same { OnErr result (told self.new ≡ told self.old) }
        ensures failed { OnErr result (Rose (fault_count self.old) (fault_count self.new)) }
        ensures stands { OnOk result (fault_count self.new ≡ fault_count self.old) }
        ensures later { fault_count self.old ≤ fault_count self.new };

    /// How many calls have failed. It never falls, and stands at its last value.
    fn faults(&self) -> u64
        ensures { result ≡ fault_count self.now };

    // what is read is among what a crash may leave
    ghost read_may_be_left: { (disk : Self) → IfSome (told disk) (λ state. MayLeave state.present state.bytes) };
}

impl<D: Disk> Disk for &mut D {
    ghost told = { λ disk. D.told disk.now };

    ghost fault_count = { λ disk. D.fault_count disk.now };

    fn size(&mut self) -> Result<u64, Failed> {
        (**self).size()
    }

    fn read_at(&mut self, at: u64, into: &mut [u8]) -> Result<usize, Failed> {
        (**self).read_at(at, into)
    }

    fn write_at(&mut self, at: u64, bytes: &[u8]) -> Result<(), Failed> {
        (**self).write_at(at, bytes)
    }

    fn sync(&mut self) -> Result<(), Failed> {
        (**self).sync()
    }

    fn faults(&self) -> u64 {
        (**self).faults()
    }

    ghost read_may_be_left = { λ disk. D.read_may_be_left disk.now };
}
