//! Calls of a kept store that no run of `keep` shows: files that are refused, a fault, records of both versions, and a
//! disk in memory whose calls fail.
ghost use Rattle.std.specs.Prelude.{◌≤◌, length};
ghost use Rattle.std.specs.List.{AllByRecursion};
ghost use Rattle.weave_data.specs.Limits.{most_ops};
ghost use Rattle.weave_script.specs.Scripts.{IsOfVersion};
ghost use Rattle.store_journal.specs.Payloads.{has_join};

use crate::keeping::{ONE_FILE, disk_of};
use graph_ops::Op;
use std::alloc::{AllocError, Global};
use std::process::Abort;
use std::test::Fail;
use store_journal::{Call, Disk, KeepFault, Kept, KeptStore, MemoryDisk, RecoverFault};
use weave_data::Name;

/// How a recovery and a transaction after it end.
#[derive(Clone, Copy, PartialEq, Eq, Debug)]
enum End {
    Foreign(u64),
    NotRecovered,
    Committed(u64),
    Refused(u64),
    Halted,
    NotKept,
}

/// Where the closed gate of the first file is.
const GATE: usize = 41;

/// What a transaction of version 2 puts there: `01`, 28 as four bytes, `02`, the numbers 2 and 1, a line, `00`.
const JOINED: &[u8] =
    b"\x01\x00\x00\x00\x1c\x02\x00\x00\x00\x00\x00\x00\x00\x02\x00\x00\x00\x00\x00\x00\x00\x01link v e v\n\x00";

fn named(rt: &impl Abort, text: &[u8]) -> Name {
    Name::parse(text).expect(rt, "a name")
}

// The first bytes of the first file, and then these.
fn file_of(alloc: Global, count: usize, rest: &[u8]) -> Result<Vec<u8>, AllocError> {
    let mut file = Vec::from_slice(alloc, ONE_FILE)?;
    file.truncate(count);
    file.extend_from_slice(rest)?;
    Ok(file)
}

// How a transaction ends on the store of a disk. After a fault, whether the next one is halted.
fn ends(alloc: Global, disk: &mut MemoryDisk, ops: &[Op]) -> End
    requires few { length ops.now ≤ most_ops }
    requires version { AllByRecursion (IsOfVersion (has_join ops.now)) ops.now }
{
    let mut store = match KeptStore::recover(alloc, disk) {
        Ok(store) => store,
        Err(RecoverFault::Foreign { at }) => return End::Foreign(at),
        Err(_) => return End::NotRecovered,
    };
    match store.commit(alloc, disk, ops) {
        Ok(Kept::Committed { number, .. }) => End::Committed(number),
        Ok(Kept::Refused { at, .. }) => End::Refused(at),
        Err(KeepFault::Disk) => match store.commit(alloc, disk, ops) {
            Err(KeepFault::Halted) => End::Halted,
            _ => End::NotKept,
        },
        Err(_) => End::NotKept,
    }
}

// How a `get` ends on such a file, if the call of this number fails.
fn ends_on(
    alloc: Global,
    v: Name,
    count: usize,
    rest: &[u8],
    fails: u64,
) -> Result<End, AllocError> {
    let file = file_of(alloc, count, rest)?;
    let mut disk = MemoryDisk::new(file, Vec::from_slice(alloc, &[fails])?);
    Ok(ends(alloc, &mut disk, &[Op::Get { v }]))
}

#[test]
fn files_and_faults(rt: HostRuntime) -> Result<(), Fail> {
    let v = named(&rt, b"v");
    for (count, rest, fails, wanted) in [
        (0, b"\x01\x00".as_slice(), 0, End::Foreign(0)),
        (GATE, b"\x01", 0, End::Foreign(41)),
        (GATE, b"\x00", 0, End::Committed(2)),
        (GATE, b"\x07", 0, End::Committed(2)),
        (GATE, JOINED, 0, End::Committed(3)),
        (GATE, b"\x00", 1, End::NotRecovered),
        (GATE, b"\x00", 4, End::Halted),
    ] {
        let end = ends_on(rt.alloc(), v, count, rest, fails)?;
        assert!(rt; end == wanted);
    }
    Ok(())
}

#[test]
fn records_of_both_versions(rt: HostRuntime) -> Result<(), Fail> {
    let (v, edge) = (named(&rt, b"v"), named(&rt, b"e"));
    let mut disk = disk_of(rt.alloc(), ONE_FILE, &[])?;
    assert!(rt; ends(rt.alloc(), &mut disk, &[Op::Create { v }]) == End::Refused(1));
    let join = Op::Join { v, edge, target: v };
    assert!(rt; ends(rt.alloc(), &mut disk, &[join]) == End::Committed(2));
    let both = file_of(rt.alloc(), GATE, JOINED)?;
    assert!(rt; disk.bytes() == both.as_slice());
    Ok(())
}

// Whether this is the number of calls in the record, and the last one failed.
fn has_failed(disk: &MemoryDisk, number: usize) -> bool {
    let calls = disk.calls();
    match calls.last() {
        Some(Call::Asked { ok } | Call::Wrote { ok, .. } | Call::Synced { ok }) => {
            calls.len() == number && !*ok
        }
        None => false,
    }
}

#[test]
fn failed_calls_are_recorded(rt: HostRuntime) -> Result<(), Fail> {
    let mut disk = disk_of(rt.alloc(), b"ab", &[4, 5, 6, 7])?;
    let mut buf = [7; 4];
    assert!(rt; disk.len() == Ok(2));
    assert!(rt; disk.write_at(4, b"z") == Ok(()));
    assert!(rt; disk.len() == Ok(5));
    assert!(rt; disk.len().is_err() && has_failed(&disk, 4));
    assert!(rt; disk.write_at(0, b"q").is_err() && has_failed(&disk, 5));
    assert!(rt; disk.sync().is_err() && has_failed(&disk, 6));
    assert!(rt; disk.read(0, &mut buf).is_err() && has_failed(&disk, 7));
    assert!(rt; disk.bytes() == b"ab\x00\x00z".as_slice());
    assert!(rt; disk.read(3, &mut buf) == Ok(2));
    assert!(rt; buf == [0, b'z', 7, 7]);
    Ok(())
}
