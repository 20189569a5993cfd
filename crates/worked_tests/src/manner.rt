//! The words after a case's command: which calls of its source and its sink fail, how much the others move, and how
//! often the command is called.

use std::alloc::{AllocError, Global};
use weave_text::number;

/// What a source or a sink does.
#[derive(Drop)]
pub struct Outside {
    /// The most bytes that a call moves.
    pub piece: u64,
    /// The numbers of the calls that fail, from 1.
    pub fails: Vec<u64>,
}

/// How a command is called.
#[derive(Drop)]
pub struct Manner {
    pub source: Outside,
    pub sink: Outside,
    pub times: u64,
}

const PIECE: u64 = 65_536;

/// Once, with a source and a sink that don't fail.
pub fn plain(alloc: Global) -> Manner {
    Manner {
        source: Outside {
            piece: PIECE,
            fails: Vec::new(alloc),
        },
        sink: Outside {
            piece: PIECE,
            fails: Vec::new(alloc),
        },
        times: 1,
    }
}

/// The manner that these words say, or none if they say none: words as `reads of 7`, `read 3 fails`, `writes of 5`,
/// `write 2 fails` and `20 times`, with a comma and a space between.
pub fn manner_of(alloc: Global, words: &str) -> Result<Option<Manner>, AllocError> {
    let mut manner = plain(alloc);
    for part in words.split(", ") {
        if !part.is_empty() && !put(&mut manner, part)? {
            return Ok(None);
        }
    }
    Ok(Some(manner))
}

// Puts in what one part says. Answers whether it says something.
fn put(manner: &mut Manner, part: &str) -> Result<bool, AllocError> {
    if let Some(times) = number_in(part, "", " times") {
        manner.times = times;
        return Ok(times > 0);
    }
    if let Some(piece) = number_in(part, "reads of ", "") {
        manner.source.piece = piece;
        return Ok(piece > 0);
    }
    if let Some(piece) = number_in(part, "writes of ", "") {
        manner.sink.piece = piece;
        return Ok(true);
    }
    if let Some(call) = number_in(part, "read ", " fails") {
        manner.source.fails.push(call)?;
        return Ok(true);
    }
    let Some(call) = number_in(part, "write ", " fails") else {
        return Ok(false);
    };
    manner.sink.fails.push(call)?;
    Ok(true)
}

// The number between a start and an end.
fn number_in(part: &str, start: &str, end: &str) -> Option<u64> {
    number(part.strip_prefix(start)?.strip_suffix(end)?.as_bytes())
}

impl Manner {
    /// Whether neither source nor sink has words.
    pub fn is_plain(&self) -> bool {
        is_plain(&self.source) && is_plain(&self.sink)
    }
}

fn is_plain(outside: &Outside) -> bool {
    outside.piece == PIECE && outside.fails.is_empty()
}
