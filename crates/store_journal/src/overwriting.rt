//! Bytes in memory that are written over and read.
ghost use Rattle.std.specs.Prelude.{◌≡◌, ◌≤◌, ◌<◌, ◌+◌, ◌++◌, ◌∷◌, [], List, ℕ, Vec, false, length, take, drop, Ok, Some, IfOk, OnOk, OnErr, IsTrue, if◌then◌else◌};
ghost use Rattle.std.specs.declared.alloc.Global.{Global};
ghost use Rattle.store_journal.specs.Disk.{written_at, ReadsAs};
ghost use Rattle.store_journal.specs.Grown.{IsLongEnough};
ghost use Rattle.store_journal.specs.Memory.{content_of};
ghost use Rattle.store_journal.specs.declared.call.Call.TheVariants.{Wrote};

use crate::call::Call;
use std::alloc::AllocError;

/// The bytes now.
pub fn content<'a>(first: &'a Vec<u8>, now: &'a Option<Vec<u8>>) -> &'a [u8]
    ensures { result.now ≡ content_of now.now first.now.items }
{
    match now {
        Some(file) => file.as_slice(),
        None => first.as_slice(),
    }
}

/// Puts the bytes from a place on into a buffer, and answers how many.
pub fn read_from(file: &[u8], at: u64, buf: &mut [u8]) -> usize
    ensures within { result ≤ length buf.new }
    ensures long { length buf.new ≡ length buf.old }
    ensures bytes { ReadsAs (Some file.now) at (take result buf.new) }
    ensures end { result ≡ 0 → 0 < length buf.new → length file.now ≤ at }
{
    let at = at as usize;
    if at >= file.len() {
        return 0;
    }
    let rest = &file[at..];
    let count = buf.len().min(rest.len());
    buf[..count].copy_from_slice(&rest[..count]);
    count
}

/// Puts bytes in the place of those that are there.
fn put(file: &mut [u8], at: usize, bytes: &[u8])
    requires { at + length bytes.now ≤ length file.old }
    ensures { file.new ≡ take at file.old ++ (bytes.now ++ drop (at + length bytes.now) file.old) }
{
    file[at..at + bytes.len()].copy_from_slice(bytes);
}

/// Makes a file long enough, with zeros.
fn grow(file: &mut Vec<u8>, end: usize) -> Result<(), AllocError>
    ensures ok { OnOk result (IsLongEnough end file.old.items file.new.items) }
    ensures err { OnErr result (file.new.items ≡ file.old.items) }
{
    if end > file.len() {
        file.resize(end, 0)?;
    }
    Ok(())
}

/// Writes bytes at a place, also past the end.
pub fn overwrite(file: &mut Vec<u8>, at: u64, bytes: &[u8]) -> Result<(), AllocError>
    ensures ok { OnOk result (file.new.items ≡ written_at at bytes.now file.old.items) }
    ensures err { OnErr result (file.new.items ≡ file.old.items) }
{
    let at = at as usize;
    let end = at.checked_add(bytes.len()).ok_or(AllocError)?;
    grow(file, end)?;
    put(file.as_mut_slice(), at, bytes);
    Ok(())
}

/// The same over a copy of the first bytes, which is made at the first write.
pub fn overwrite_copy(
    first: &Vec<u8>,
    now: &mut Option<Vec<u8>>,
    at: u64,
    bytes: &[u8],
) -> Result<(), AllocError>
    ensures ok { OnOk result (content_of now.new first.now.items
        ≡ written_at at bytes.now (content_of now.old first.now.items)) }
    ensures err { OnErr result (content_of now.new first.now.items ≡ content_of now.old first.now.items) }
{
    if let Some(file) = now {
        return overwrite(file, at, bytes);
    }
    let mut file = Vec::new(*first.allocator());
    file.extend_from_slice(first.as_slice())?;
    overwrite(&mut file, at, bytes)?;
    *now = Some(file);
    Ok(())
}

/// Writes, unless the call is to fail, and keeps a record of the call. Answers whether it was written.
pub fn overwrite_and_note(
    first: &Vec<u8>,
    now: &mut Option<Vec<u8>>,
    calls: &mut Vec<Call>,
    at: u64,
    bytes: &[u8],
    is_planned: bool,
) -> Result<bool, AllocError>
    ensures noted { IfOk result (λ ok. (v : Vec ℕ Global) × (v.items ≡ bytes.now)
        × (calls.new.items ≡ calls.old.items ++ Wrote at v ok ∷ [])) }
    ensures content { IfOk result (λ ok. content_of now.new first.now.items
        ≡ (if ok then written_at at bytes.now (content_of now.old first.now.items)
        else content_of now.old first.now.items)) }
    ensures unplanned { IfOk result (λ ok. IsTrue ok → is_planned ≡ false) }
    ensures err { OnErr result (calls.new.items ≡ calls.old.items) }
    ensures err_content { OnErr result (content_of now.new first.now.items ≡ content_of now.old first.now.items) }
{
    let copy = bytes.to_vec(*first.allocator())?;
    calls.reserve(1)?;
    let ok = !is_planned && overwrite_copy(first, now, at, bytes).is_ok();
    calls.push_reserved(Call::Wrote {
        at,
        bytes: copy,
        ok,
    });
    Ok(ok)
}

/// Keeps a record of a call. Answers whether there was room.
pub fn note(calls: &mut Vec<Call>, call: Call) -> bool
    ensures { calls.new.items ≡ (if result then calls.old.items ++ call ∷ [] else calls.old.items) }
{
    calls.push(call).is_ok()
}
