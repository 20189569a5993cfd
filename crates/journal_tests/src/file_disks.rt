//! A file of the operating system as a disk.

use std::env::temp_dir;
use std::fs::remove_file;
use std::test::Fail;
use store_journal::{Disk, FileDisk};

// A file is made, written over, read, and found again; a second one at the path can't have it meanwhile.
#[test]
fn a_file_keeps_what_is_written(rt: HostRuntime) -> Result<(), Fail> {
    let folder = temp_dir(&rt)?;
    let path = format!(in rt.alloc();
        "{}/weaver_journal_{}",
        folder.display(),
        std::process::id(rt.process())
    )?;
    let mut bytes = [0; 8];
    {
        let mut disk = FileDisk::at(&rt, path.as_str());
        assert!(rt; disk.len() == Ok(0));
        assert!(rt; disk.write_at(0, b"gate") == Ok(()));
        assert!(rt; disk.write_at(2, b"me!") == Ok(()));
        assert!(rt; disk.sync() == Ok(()));
        assert!(rt; disk.read(1, &mut bytes) == Ok(4));
        assert!(rt; bytes == *b"ame!\x00\x00\x00\x00");
        assert!(rt; disk.read(5, &mut bytes) == Ok(0));
        let mut other = FileDisk::at(&rt, path.as_str());
        assert!(rt; other.len().is_err());
    }
    let mut again = FileDisk::at(&rt, path.as_str());
    assert!(rt; again.len() == Ok(5));
    remove_file(&rt, path.as_str())?;
    Ok(())
}
