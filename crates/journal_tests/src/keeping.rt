//! Runs of `keep` over bytes in memory.

use std::alloc::{AllocError, Global};
use store_journal::MemoryDisk;
use weave_io::{MemorySink, MemorySource};
use weave_keep::keep;
use weaver_top::Status;

/// The first script of the worked rows.
pub const ONE: &[u8] = b"weaver 1 1 1\ntx t1 0 0\ncreate v\nset v k x\nend\n";

/// Its report on an empty disk.
pub const ONE_REPORT: &[u8] = b"report 1\ntx t1 1:0:1 committed 1\norder t1\nend\n";

/// The journal after it.
pub const ONE_FILE: &[u8] =
    b"\x01\x00\x00\x00\x24\x01\x00\x00\x00\x00\x00\x00\x00\x01\x00\x00\x00\x00\x00\x00\x00\x01create v\nset v k x\n\x00";

/// The second script.
pub const TWO: &[u8] = b"weaver 1 1 1\ntx t2 0 0\nget v\nend\ntx t3 0 0\ncreate v\nend\n";

/// Its report after the first.
pub const TWO_REPORT: &[u8] =
    b"report 1\ntx t2 2:0:1 committed 2\ngot 1 record k=x\ntx t3 2:0:2 refused 1 exists at 2\norder t2\nend\n";

/// A script that tells how many commits there are.
pub const LOOK: &[u8] = b"weaver 1 1 1\ntx l 0 0\nget v\nend\n";

/// Its reports after no commit, one and two of those above.
pub const LOOK_REPORTS: [&[u8]; 3] = [
    b"report 1\ntx l 1:0:1 committed 1\ngot 1 absent\norder l\nend\n",
    b"report 1\ntx l 2:0:1 committed 2\ngot 1 record k=x\norder l\nend\n",
    b"report 1\ntx l 3:0:1 committed 3\ngot 1 record k=x\norder l\nend\n",
];

/// A disk of these bytes, of which the calls with these numbers fail.
pub fn disk_of(alloc: Global, bytes: &[u8], fails: &[u64]) -> Result<MemoryDisk, AllocError> {
    Ok(MemoryDisk::new(
        Vec::from_slice(alloc, bytes)?,
        Vec::from_slice(alloc, fails)?,
    ))
}

/// How `keep` ends on a disk, and what it writes.
pub fn kept(
    alloc: Global,
    input: &[u8],
    disk: &mut MemoryDisk,
) -> Result<(Status, Vec<u8>), AllocError> {
    kept_to(alloc, input, disk, &[])
}

/// The same with a sink of which the calls with these numbers fail.
pub fn kept_to(
    alloc: Global,
    input: &[u8],
    disk: &mut MemoryDisk,
    fails: &[u64],
) -> Result<(Status, Vec<u8>), AllocError> {
    let mut source = MemorySource::new(Vec::from_slice(alloc, input)?, Vec::new(alloc), 65_536);
    let mut sink = MemorySink::new(alloc, Vec::from_slice(alloc, fails)?, 65_536);
    let status = keep(alloc, &mut source, &mut sink, disk);
    Ok((status, Vec::from_slice(alloc, sink.bytes())?))
}

/// Whether `keep` ends so on a disk of these bytes, and writes this.
pub fn keeps(
    alloc: Global,
    input: &[u8],
    disk: &mut MemoryDisk,
    status: Status,
    text: &[u8],
) -> Result<bool, AllocError> {
    let (ended, written) = kept(alloc, input, disk)?;
    Ok(ended == status && written.as_slice() == text)
}

/// How many commits a file has, of those above; `None` if it is refused.
pub fn commits_in(alloc: Global, file: &[u8]) -> Result<Option<usize>, AllocError> {
    commits_by(alloc, file, &LOOK_REPORTS)
}

/// The same by the reports of `LOOK` after no commit, one, two and so on.
pub fn commits_by(
    alloc: Global,
    file: &[u8],
    reports: &[&[u8]],
) -> Result<Option<usize>, AllocError> {
    let mut disk = disk_of(alloc, file, &[])?;
    let (_, written) = kept(alloc, LOOK, &mut disk)?;
    Ok(
        reports
            .iter()
            .position(|report| *report == written.as_slice()),
    )
}
