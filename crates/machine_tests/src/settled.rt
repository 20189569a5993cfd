//! Entries of the oracle's log.

use vector_stamp::Stamp;
use weave_entries::{OracleDeed, OracleEntry};

/// The entry is of a call by this author, which put these events before this one, and added pairs at these places.
pub fn is_entry(
    entry: &OracleEntry,
    author: u32,
    earlier: &[Stamp],
    later: &Stamp,
    places: &[u32],
) -> bool {
    let OracleDeed::Settled {
        earlier: put,
        later: before,
        places: at,
    } = &entry.deed;
    entry.author == author
        && put.as_slice() == earlier
        && before == later
        && at.as_slice() == places
}
