ghost use Rattle.std.specs.Prelude.{◌≡◌, ◌≤◌, None, Some, IfOk, IfSome, IsErr, OnOk, OnErr, length};
ghost use Rattle.vmv_edge.specs.Outside.{Rose};

use crate::disk::Disk;
use std::fs::File;
use std::io::ErrorKind;
use std::os::unix::fs::FileExt;
use vmv_edge::Failed;

// How often a read that was interrupted is tried.
const TRIES: u32 = 16;

/// A file of the machine as a disk. What it holds isn't told.
#[derive(Drop)]
pub struct FileDisk {
    file: File,
    faults: u64,
}

// Counts an answer that is a fault.
fn noted<T: Drop>(faults: &mut u64, got: Option<T>) -> Result<T, Failed>
    ensures failed { OnErr result (Rose faults.old faults.new) }
    ensures stands { OnOk result (faults.new ≡ faults.old) }
    ensures later { faults.old ≤ faults.new }
    ensures same { IfOk result (λ value. got ≡ Some value) }
    ensures cause { IsErr result → got ≡ None }
{
    match got {
        Some(value) => Ok(value),
        None => {
            *faults = faults.saturating_add(1);
            Err(Failed)
        }
    }
}

// How many bytes the file has, where it tells that.
fn size_of(file: &File) -> Option<u64> {
    match file.metadata() {
        Ok(metadata) => Some(metadata.len()),
        Err(_) => None,
    }
}

// Reads some bytes, where that works. A read of none below the size doesn't.
fn read_some(file: &File, at: u64, into: &mut [u8]) -> Option<usize>
    ensures { IfSome result (λ n. n ≤ length into.new) }
{
    for _ in 0..TRIES {
        match file.read_at(into, at) {
            Ok(0) if !into.is_empty() => {
                let size = size_of(file)?;
                return if at < size { None } else { Some(0) };
            }
            Ok(n) => return Some(n),
            Err(error) if error.kind() == ErrorKind::Interrupted => {}
            Err(_) => return None,
        }
    }
    None
}

impl FileDisk {
    /// The file, of which no call has failed yet.
    pub fn new(file: File) -> FileDisk
        ensures { ⟦<FileDisk as Disk>⟧.fault_count result ≡ 0 }
    {
        FileDisk { file, faults: 0 }
    }
}

impl Disk for FileDisk {
    ghost told = { λ _. None };

    ghost fault_count = { λ disk. disk.faults };

    fn size(&mut self) -> Result<u64, Failed> {
        let got = size_of(&self.file);
        noted(&mut self.faults, got)
    }

    /// A read of no byte below the size is a fault.
    fn read_at(&mut self, at: u64, into: &mut [u8]) -> Result<usize, Failed> {
        let got = read_some(&self.file, at, into);
        noted(&mut self.faults, got)
    }

    fn write_at(&mut self, at: u64, bytes: &[u8]) -> Result<(), Failed> {
        let got = self.file.write_all_at(bytes, at).ok();
        noted(&mut self.faults, got)
    }

    /// Syncs the file to its device.
    fn sync(&mut self) -> Result<(), Failed> {
        let got = self.file.sync_all().ok();
        noted(&mut self.faults, got)
    }

    fn faults(&self) -> u64 {
        self.faults
    }

    ghost read_may_be_left = { λ _. tt };
}
