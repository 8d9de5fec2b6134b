use vmv_edge::Text;

/// A call that was made of a disk in memory, and whether it answered Ok.
#[derive(Debug, Drop)]
pub enum DiskCall {
    /// The size was asked for.
    Size { done: bool },
    /// So many bytes at most were asked for, from the place on.
    Read { at: u64, most: usize, done: bool },
    /// The bytes were to be written at the place. Where the call failed, none was.
    Write { at: u64, bytes: Text, done: bool },
    /// A sync.
    Sync { done: bool },
}
