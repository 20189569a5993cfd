//! Reading an input whole.
ghost use Rattle.std.specs.Prelude.{◌≡◌, ◌+◌, ◌≤◌, [], length, vec_len, IfOk, OnOk, IsErrOf};
ghost use Rattle.weave_io.specs.Counts.{HasRisen};
ghost use Rattle.weave_io.specs.Told.{Tells, TakesCount, TakesAtMost};

use crate::faults::ReadFault;
use crate::source::Source;
use std::alloc::{AllocError, Global};

/// The most bytes that an input may have.
pub const MOST_BYTES: usize = weave_data::MOST_BYTES;

/// How many bytes a call of the source may give.
const PIECE: usize = 65_536;

/// All bytes to the end. What was taken of the source is gone even if this is refused.
pub fn read_all<S: Source>(alloc: Global, source: &mut S) -> Result<Vec<u8>, ReadFault>
    ensures all { IfOk result (λ bytes. Tells (S.left source.old) bytes.items) }
    ensures end { OnOk result (Tells (S.left source.new) []) }
    ensures short { IfOk result (λ bytes. length bytes.items ≤ MOST_BYTES) }
    ensures too_long { IsErrOf result ReadFault.TooLong →
        TakesCount (S.left source.old) (S.left source.new) (MOST_BYTES + 1) }
    ensures read { IsErrOf result ReadFault.Read →
        HasRisen (S.faults source.old) (S.faults source.new) }
    ensures read_in_time { IsErrOf result ReadFault.Read →
        TakesAtMost (S.left source.old) (S.left source.new) MOST_BYTES }
    ensures stops { TakesAtMost (S.left source.old) (S.left source.new) (MOST_BYTES + 1) }
    ensures never_falls { S.faults source.old ≤ S.faults source.new }
{
    let mut storage = zeroes(alloc, PIECE)?;
    let buffer = storage.as_mut_slice();
    let mut bytes = Vec::new(alloc);
    loop {
        let room = PIECE.min(MOST_BYTES + 1 - bytes.len());
        let count = source.take(&mut buffer[..room])?;
        if count == 0 {
            return Ok(bytes);
        }
        if count > MOST_BYTES - bytes.len() {
            return Err(ReadFault::TooLong);
        }
        bytes.extend_from_slice(&buffer[..count])?;
    }
}

// Apart, so that no proof spells out so long a list.
fn zeroes(alloc: Global, count: usize) -> Result<Vec<u8>, AllocError>
    ensures { IfOk result (λ zeroes. vec_len zeroes ≡ count) }
{
    vec![in alloc; 0u8; count]
}
