//! The limits of the store that several crates keep, each in one place.

/// The most gatekeepers of a store.
pub const MOST_GATES: u32 = 8;

/// The most shards of a store.
pub const MOST_SHARDS: u32 = 16;

/// The number of sessions, which are numbered from 0.
pub const MOST_SESSIONS: u32 = 64;

/// The most letters of a name.
pub const MOST_LETTERS: usize = 32;

/// The most bytes of an input.
pub const MOST_BYTES: usize = 4_194_304;

/// The most requests of a script.
pub const MOST_REQUESTS: usize = 10_000;

/// The most operations of a transaction.
pub const MOST_OPS: usize = 64;

/// The most programs of a script.
pub const MOST_PROGRAMS: usize = 1_000;

/// The most `get` operations of a script.
pub const MOST_GETS: usize = 1_000;
