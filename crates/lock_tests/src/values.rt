//! Calls and operations as values of tables.

use std::process::Abort;
use weave_data::Name;

/// An operation on a vertex of one letter.
#[derive(Clone, Copy)]
pub enum Do {
    Create(u8),
    Delete(u8),
    /// Gives the key k the value x.
    Set(u8),
    Get(u8),
}

/// A call of a hand. Gatekeepers come before requests and shards, shards before gatekeepers at `Apply`.
#[derive(Clone, Copy)]
pub enum Call<'a> {
    /// Gatekeeper and request.
    BeginTx(u32, u32),
    /// After the last stamp that the hand began.
    BeginTxAfter(u32, u32),
    /// Gatekeeper, request and the vertex that it shows.
    BeginProgram(u32, u32, u8),
    /// After the last stamp that the hand began.
    BeginProgramAfter(u32, u32, u8),
    /// What the transaction does that was begun.
    Commit(&'a [Do]),
    Send,
    /// The program that has read.
    Finish(u32),
    /// Gatekeeper and shard.
    Nop(u32, u32),
    Say(u32),
    /// The clock that was said last.
    Hear(u32),
    /// Gatekeeper, shard and number.
    Fetch(u32, u32, u64),
    /// What was fetched.
    Arrive,
    /// Shard and gatekeeper.
    Apply(u32, u32),
    /// The vertex of the program that was begun last.
    Visit,
}

/// The number of a hand, its call, and what it answers.
pub type Row<'a> = (usize, Call<'a>, &'a str);

/// The name of one letter.
pub fn letter(rt: &impl Abort, byte: u8) -> Name {
    Name::parse(&[byte]).expect(rt, "a letter")
}
