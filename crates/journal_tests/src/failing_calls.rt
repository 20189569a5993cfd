//! Each call of the disk fails in turn in the second run, and in one of three commits; and the sink fails.

use crate::keeping::{
    ONE, ONE_FILE, TWO, TWO_REPORT, commits_by, commits_in, disk_of, keeps, kept_to,
};
use std::alloc::{AllocError, Global};
use std::test::Fail;
use weaver_top::Status;

// How many commits the second run leaves if the call of this number fails. `None` if it doesn't end as it has to.
fn left_by(alloc: Global, number: u64) -> Result<Option<usize>, AllocError> {
    let mut disk = disk_of(alloc, ONE_FILE, &[number])?;
    if !keeps(alloc, TWO, &mut disk, Status::Disk, b"")? {
        return Ok(None);
    }
    commits_in(alloc, disk.bytes())
}

#[test]
fn a_call_that_fails_leaves_one_commit_or_two(rt: HostRuntime) -> Result<(), Fail> {
    // a sync and two reads of the recovery, and the four calls of a commit
    for number in 1..=7 {
        let left = left_by(rt.alloc(), number)?;
        assert!(rt; left == Some(if number == 7 { 2 } else { 1 }));
    }
    let mut disk = disk_of(rt.alloc(), ONE_FILE, &[8])?;
    assert!(rt; keeps(rt.alloc(), TWO, &mut disk, Status::Done, TWO_REPORT)?);
    assert!(rt; commits_in(rt.alloc(), disk.bytes())? == Some(2));
    Ok(())
}

// Three transactions that pass.
const THREE: &[u8] =
    b"weaver 1 1 1\ntx a 0 0\ncreate a\nend\ntx b 0 0\ncreate b\nend\ntx c 0 0\ncreate c\nend\n";

// What a look says after none, one, two and all of them.
const THREE_LOOKS: [&[u8]; 4] = [
    b"report 1\ntx l 1:0:1 committed 1\ngot 1 absent\norder l\nend\n",
    b"report 1\ntx l 2:0:1 committed 2\ngot 1 absent\norder l\nend\n",
    b"report 1\ntx l 3:0:1 committed 3\ngot 1 absent\norder l\nend\n",
    b"report 1\ntx l 4:0:1 committed 4\ngot 1 absent\norder l\nend\n",
];

// A recovery of an empty disk is four calls, and each commit four more: those whose four calls were made are there. If
// the last one of them failed, the disk reads so too.
#[test]
fn commits_made_before_a_failure_stay(rt: HostRuntime) -> Result<(), Fail> {
    for number in 1..=16 {
        let mut disk = disk_of(rt.alloc(), b"", &[number])?;
        assert!(rt; keeps(rt.alloc(), THREE, &mut disk, Status::Disk, b"")?);
        let found = commits_by(rt.alloc(), disk.bytes(), &THREE_LOOKS)?;
        assert!(rt; found == Some((number.saturating_sub(4) / 4) as usize));
    }
    Ok(())
}

// If the report can't be written, its commits are on the disk.
#[test]
fn a_sink_that_fails_leaves_the_commits(rt: HostRuntime) -> Result<(), Fail> {
    let mut disk = disk_of(rt.alloc(), b"", &[])?;
    let (status, written) = kept_to(rt.alloc(), ONE, &mut disk, &[1])?;
    assert!(rt; status == Status::Write);
    assert!(rt; written.is_empty());
    assert!(rt; disk.bytes() == ONE_FILE);
    Ok(())
}
