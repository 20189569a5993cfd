// What a seat at the table knows. No value of these types is ever made: clauses read a `LinkedList` as a list.
use std::collections::LinkedList;

/// An author's number, and the entries of the log that are its own.
pub(crate) struct Author<E> {
    pub(crate) number: u32,
    pub(crate) own: LinkedList<(u32, E)>,
}

pub(crate) struct View<E> {
    /// False once the seat was joined to another.
    pub(crate) live: bool,
    pub(crate) frame: LinkedList<LinkedList<u64>>,
    /// The log that the lock began with.
    pub(crate) start: LinkedList<(u32, E)>,
    /// As much of the log as the seat has seen.
    pub(crate) seen: LinkedList<(u32, E)>,
    /// After a join the shorter of the two lists, until they are compared. Else it is `start`.
    pub(crate) shorter: LinkedList<(u32, E)>,
    /// 0, or what the lock's word says while the seat has the turn.
    pub(crate) turn: u64,
    pub(crate) authors: LinkedList<Author<E>>,
}
