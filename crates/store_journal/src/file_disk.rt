//! A file of the operating system. No contract says what is in it, nor what a crash leaves of it: that it keeps what
//! was synced is trusted.
ghost use Rattle.std.specs.Prelude.{◌≡◌, ◌≤◌, length, take, Ok, IfOk, OnErr, OnOk, None};
ghost use Rattle.weave_io.specs.Counts.{HasRisen};
ghost use Rattle.store_journal.specs.NotTold.{AnyBytes, any_image, any_since, none_since};

use crate::disk::Disk;
use std::fs::{File, OpenOptions, canonicalize};
use std::io;
use std::io::ErrorKind;
use std::os::unix::fs::{FileExt, OpenOptionsExt};
use weave_io::Failed;

/// A file at a path, which the first call opens, or makes. While it is open, no other process that locks files has it.
#[derive(Drop)]
pub struct FileDisk<'a> {
    rt: &'a HostRuntime,
    path: &'a str,
    file: Option<File>,
    faults: u64,
}

impl<'a> FileDisk<'a> {
    /// The file at this path. It opens nothing and takes no memory.
    pub fn at(rt: &'a HostRuntime, path: &'a str) -> FileDisk<'a>
        ensures { ⟦<FileDisk<'a> as Disk>⟧.faults result ≡ 0 }
    {
        FileDisk {
            rt,
            path,
            file: None,
            faults: 0,
        }
    }
}

impl<'a> Disk for FileDisk<'a> {
    ghost seen = { λ _. None };

    ghost images = { λ _. AnyBytes };

    ghost moment = { λ _. 0 };

    ghost images_since = { λ _ _. AnyBytes };

    ghost faults = { λ d. d.faults };

    fn len(&mut self) -> Result<u64, Failed> {
        let answer = length(self.rt, self.path, &mut self.file);
        counted(&mut self.faults, answer)
    }

    fn read(&mut self, at: u64, buf: &mut [u8]) -> Result<usize, Failed> {
        let answer = read(self.rt, self.path, &mut self.file, at, buf);
        counted(&mut self.faults, answer)
    }

    fn write_at(&mut self, at: u64, bytes: &[u8]) -> Result<(), Failed> {
        let answer = write(self.rt, self.path, &mut self.file, at, bytes);
        counted(&mut self.faults, answer)
    }

    fn sync(&mut self) -> Result<(), Failed> {
        let answer = sync(self.rt, self.path, &mut self.file);
        counted(&mut self.faults, answer)
    }

    ghost since_now = { none_since };

    ghost now_since = { any_since };

    ghost reads_as_image = { any_image };
}

// The outcome of a call, counted if it failed.
fn counted<T: Drop>(faults: &mut u64, answer: io::Result<T>) -> Result<T, Failed>
    ensures value { IfOk result (λ value. answer ≡ Ok value) }
    ensures failed { OnErr result (HasRisen faults.old faults.new) }
    ensures no_fault { OnOk result (faults.new ≡ faults.old) }
    ensures never_falls { faults.old ≤ faults.new }
{
    match answer {
        Ok(value) => Ok(value),
        Err(_) => {
            *faults = faults.saturating_add(1);
            Err(Failed)
        }
    }
}

fn length(rt: &HostRuntime, path: &str, file: &mut Option<File>) -> io::Result<u64> {
    Ok(opened(rt, path, file)?.metadata()?.len())
}

fn read(
    rt: &HostRuntime,
    path: &str,
    file: &mut Option<File>,
    at: u64,
    buf: &mut [u8],
) -> io::Result<usize>
    ensures within { IfOk result (λ n. n ≤ length buf.new) }
    ensures long { length buf.new ≡ length buf.old }
{
    opened(rt, path, file)?.read_at(buf, at)
}

fn write(
    rt: &HostRuntime,
    path: &str,
    file: &mut Option<File>,
    at: u64,
    bytes: &[u8],
) -> io::Result<()> {
    opened(rt, path, file)?.write_all_at(bytes, at)
}

fn sync(rt: &HostRuntime, path: &str, file: &mut Option<File>) -> io::Result<()> {
    opened(rt, path, file)?.sync_data()
}

// The file, opened if it isn't yet.
fn opened<'b>(rt: &HostRuntime, path: &str, file: &'b mut Option<File>) -> io::Result<&'b File> {
    if file.is_none() {
        *file = Some(open(rt, path)?);
    }
    match file {
        Some(file) => Ok(file),
        None => Err(ErrorKind::NotFound.into()),
    }
}

// Opens a file, or makes it. Its handle is none of those of the standard streams: if one of these is closed, the
// report would be written into the file in its place. It is locked before it is read, and its folder is synced, so that
// a crash leaves its name.
fn open(rt: &HostRuntime, path: &str) -> io::Result<File> {
    let opened = OpenOptions::new()
        .read(true)
        .write(true)
        .create(true)
        .mode(0o644)
        .open(rt, path)?;
    let file = opened.try_clone()?;
    if !file.metadata()?.is_file() {
        return Err(ErrorKind::Unsupported.into());
    }
    file.try_lock()?;
    sync_folder(rt, path)?;
    Ok(file)
}

fn sync_folder(rt: &HostRuntime, path: &str) -> io::Result<()> {
    let real = canonicalize(rt, path)?;
    match real.parent() {
        Some(folder) => File::open(rt, folder)?.sync_all(),
        None => Ok(()),
    }
}
