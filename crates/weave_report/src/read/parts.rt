//! What lines are read as, before it is a report.

use graph_ops::{Edge, Got};
use report_rules::{Reply, Report};
use vector_stamp::Stamp;
use weave_data::{Items, Name};

/// What a word of a record says.
#[derive(Drop)]
pub(crate) enum Item {
    Property { key: Name, value: Name },
    Link { name: Name, edge: Edge },
}

/// A committed transaction whose `get` lines are still to come.
#[derive(Drop)]
pub(crate) struct Commit {
    pub request: u32,
    pub stamp: Stamp,
    pub number: u64,
    /// The numbers of its `get` operations, in order.
    pub gets: Items<u32>,
}

/// What a reply's line says.
#[derive(Drop)]
pub(crate) enum ReplyLine {
    /// The whole reply.
    Whole(Reply),
    /// A commit, which its `get` lines follow.
    Committed(Commit),
}

/// The place of a line in a report.
#[derive(Drop)]
pub(crate) enum Place {
    /// It is the first line.
    Start,
    /// It is after a reply, or is the first of them.
    Replies,
    /// It is after a commit and these answers to its first `get`s, and one at least is still to come.
    Gots { commit: Commit, answers: Items<Got> },
    /// It is after a pair.
    Pairs,
    /// It is after the order.
    Answers,
    /// It is after the end.
    Ended,
}

/// How far a text has been read: the report so far, and the place of the next line.
#[derive(Drop)]
pub(crate) struct Reading {
    pub report: Report,
    pub place: Place,
}
