//! The worked rows: reports, bytes, and files that are no journal.

use crate::keeping::{ONE, ONE_FILE, ONE_REPORT, TWO, TWO_REPORT, commits_in, disk_of, keeps};
use std::test::Fail;
use weaver_top::Status;

#[test]
fn two_runs_and_their_bytes(rt: HostRuntime) -> Result<(), Fail> {
    let mut disk = disk_of(rt.alloc(), b"", &[])?;
    assert!(rt; keeps(rt.alloc(), ONE, &mut disk, Status::Done, ONE_REPORT)?);
    assert!(rt; disk.bytes() == ONE_FILE);
    assert!(rt; keeps(rt.alloc(), TWO, &mut disk, Status::Done, TWO_REPORT)?);
    assert!(rt; disk.bytes().len() == 70);
    Ok(())
}

#[test]
fn files_that_are_refused_or_empty(rt: HostRuntime) -> Result<(), Fail> {
    let mut foreign = disk_of(rt.alloc(), b"\x01\x00", &[])?;
    assert!(rt; keeps(rt.alloc(), ONE, &mut foreign, Status::Foreign, b"")?);
    assert!(rt; foreign.bytes() == b"\x01\x00".as_slice());
    for file in [b"".as_slice(), b"\x00", b"\x01", b"\x07"] {
        assert!(rt; commits_in(rt.alloc(), file)? == Some(0));
    }
    Ok(())
}

#[test]
fn scripts_that_cannot_be_kept(rt: HostRuntime) -> Result<(), Fail> {
    for script in [
        b"weaver 1 2 1\n".as_slice(),
        b"weaver 1 1 1\nprog p 0 0 show v\n",
        b"weaver 1 1 1\ntx t 0 0\nend\nsteps\nbegin t\n",
    ] {
        let mut disk = disk_of(rt.alloc(), b"", &[])?;
        assert!(rt;
            keeps(
                rt.alloc(),
                script,
                &mut disk,
                Status::Refused,
                b"refused 0 unkept\n"
            )?
        );
        assert!(rt; disk.calls().is_empty());
    }
    Ok(())
}

// A record is of version 2 exactly if a `link` of version 2 is in it. A journal may have both kinds, and each `link` is
// judged by its own version when it is read back.
#[test]
fn records_of_both_versions(rt: HostRuntime) -> Result<(), Fail> {
    let mut disk = disk_of(rt.alloc(), ONE_FILE, &[])?;
    for (script, report) in [
        (
            b"weaver 1 1 1\ntx a 0 0\nlink v e w\nend\n".as_slice(),
            b"report 1\ntx a 2:0:1 committed 2\norder a\nend\n".as_slice(),
        ),
        (
            b"weaver 2 1 1\ntx b 0 0\nlink v f w\nend\ntx c 0 0\nlink v f v\nend\ntx d 0 0\nget w\nend\n",
            b"report 1\ntx b 3:0:1 refused 1 no_target at 2\ntx c 3:0:2 committed 3\ntx d 3:0:3 committed 4\ngot 1 absent\norder c d\nend\n",
        ),
        (
            b"weaver 1 1 1\ntx e 0 0\nget v\nend\n",
            b"report 1\ntx e 5:0:1 committed 5\ngot 1 record k=x e>w f>v\norder e\nend\n",
        ),
    ] {
        assert!(rt; keeps(rt.alloc(), script, &mut disk, Status::Done, report)?);
    }
    // the versions of the records
    for (place, version) in [(5, 1), (46, 1), (79, 2), (112, 1)] {
        assert!(rt; disk.bytes().get(place) == Some(&version));
    }
    Ok(())
}
