//! What the words of forms stand for.

use crate::fields::Kind;

/// What a field of this kind has to be.
pub(crate) fn kind_words(kind: Kind) -> &'static [u8] {
    match kind {
        Kind::Name => b"a name",
        Kind::Request => b"the name of a request",
        Kind::Number { .. } => b"a number",
        Kind::Stamp => b"a stamp",
        Kind::Other => b"one word or more",
    }
}

/// What a word of a form stands for.
pub(crate) fn meaning_of(word: &[u8]) -> &'static [u8] {
    match word {
        b"NAME" => b"that of the new request",
        b"VERTEX" => b"that of a vertex",
        b"EDGE" => b"that of an edge",
        b"KEY" => b"the key of a property or of a tag",
        b"VALUE" => b"the value of a property or of a tag",
        b"REQUEST" | b"REQUESTS" => b"one of the script",
        b"STAMP" => b"EPOCH:HOME:COUNTS",
        b"REASON" => b"why the operation is refused",
        b"ANSWER" => b"what was answered",
        b"STATE" => b"`absent`, or `record` and its items",
        _ => meaning_of_number(word),
    }
}

fn meaning_of_number(word: &[u8]) -> &'static [u8] {
    match word {
        b"SESSION" => b"that of the request's session, from 0 to 63",
        b"GATEKEEPER" => b"that of a gatekeeper, from 0",
        b"SHARD" => b"that of a shard, from 0",
        b"BOUND" => b"the greatest number of edges, from 0 to 1000",
        b"NUMBER" => b"that of a notice or a message, from 1",
        b"EPOCH" => b"that of the new epoch, from 1",
        b"COUNT" => b"that of a commit, an operation or a step",
        _ => b"as the script's first line says",
    }
}
