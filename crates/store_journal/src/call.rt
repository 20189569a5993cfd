//! The record of a disk's calls.

/// A call of a disk in memory, with what it was asked and whether it succeeded.
#[derive(Drop)]
pub enum Call {
    /// The length, or some bytes.
    Asked { ok: bool },
    /// A write. Of one that failed any part may be on the disk.
    Wrote { at: u64, bytes: Vec<u8>, ok: bool },
    /// A sync.
    Synced { ok: bool },
}
