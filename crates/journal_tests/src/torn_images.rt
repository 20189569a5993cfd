//! Images that a crash may leave of the second run, at each moment and torn in each way, recovered and compared.

use crate::keeping::{ONE_FILE, TWO, commits_in, disk_of, kept};
use std::alloc::{AllocError, Global};
use std::test::Fail;
use store_journal::Call;

/// How much of a write a crash leaves.
#[derive(Clone, Copy)]
enum Tear {
    Nothing,
    Half,
    All,
    Other(u8),
}

// Writes bytes over a file, as far as the crash lets them be.
fn write(file: &mut Vec<u8>, at: u64, bytes: &[u8], tear: Tear) -> Result<(), AllocError> {
    let count = match tear {
        Tear::Nothing => 0,
        Tear::Half => bytes.len() / 2,
        Tear::All | Tear::Other(_) => bytes.len(),
    };
    for (index, byte) in bytes.iter().take(count).enumerate() {
        let place = (at as usize).saturating_add(index);
        let byte = match tear {
            Tear::Other(other) => other,
            _ => *byte,
        };
        if place < file.len() {
            file[place] = byte;
        } else if place == file.len() {
            file.push(byte)?;
        }
    }
    Ok(())
}

// The image that a crash leaves after the first calls of a record, if the last write of them is torn.
fn image(alloc: Global, calls: &[Call], tear: Tear) -> Result<Vec<u8>, AllocError> {
    let mut file = Vec::from_slice(alloc, ONE_FILE)?;
    for (index, call) in calls.iter().enumerate() {
        if let Call::Wrote { at, bytes, .. } = call {
            let tear = if index + 1 == calls.len() {
                tear
            } else {
                Tear::All
            };
            write(&mut file, *at, bytes.as_slice(), tear)?;
        }
    }
    Ok(file)
}

// Whether the image after the first `count` calls has the commits that it may have: one before the gate is written, one
// or two until that is synced, and then two.
fn is_kept(alloc: Global, calls: &[Call], count: usize, tear: Tear) -> Result<bool, AllocError> {
    let file = image(alloc, &calls[..count.min(calls.len())], tear)?;
    let left = calls.len().saturating_sub(count);
    Ok(match commits_in(alloc, file.as_slice())? {
        Some(1) => left > 0,
        Some(2) => left <= 1,
        _ => false,
    })
}

#[test]
fn each_image_has_its_commits(rt: HostRuntime) -> Result<(), Fail> {
    let mut disk = disk_of(rt.alloc(), ONE_FILE, &[])?;
    kept(rt.alloc(), TWO, &mut disk)?;
    let calls = disk.calls();
    assert!(rt; calls.len() == 7);
    for count in 0..=calls.len() {
        for tear in [
            Tear::Nothing,
            Tear::Half,
            Tear::All,
            Tear::Other(0),
            Tear::Other(1),
            Tear::Other(7),
            Tear::Other(255),
        ] {
            assert!(rt; is_kept(rt.alloc(), calls, count, tear)?);
        }
    }
    Ok(())
}

// A recovery writes 0 over a torn gate. If that write is torn too it may leave a 1: the commit is back.
#[test]
fn a_recovery_that_is_torn_brings_a_commit_back(rt: HostRuntime) -> Result<(), Fail> {
    let mut disk = disk_of(rt.alloc(), ONE_FILE, &[])?;
    kept(rt.alloc(), TWO, &mut disk)?;
    // up to the write of the gate
    let calls = disk.calls();
    let count: usize = 6;
    let torn = image(rt.alloc(), &calls[..count.min(calls.len())], Tear::Other(7))?;
    assert!(rt; commits_in(rt.alloc(), torn.as_slice())? == Some(1));
    let mut back = torn;
    write(&mut back, 41, b"\x00", Tear::Other(1))?;
    assert!(rt; commits_in(rt.alloc(), back.as_slice())? == Some(2));
    Ok(())
}
