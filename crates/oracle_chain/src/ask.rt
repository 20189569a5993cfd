//! What a chain is asked, and what it answers.
use std::alloc::{AllocError, Global};
use vector_stamp::Stamp;
use weave_data::{Copied, Items};

/// An ask: to put the earlier events before the later one, and whether pairs are kept for it.
#[derive(Drop)]
pub struct Ask {
    pub earlier: Items<Stamp>,
    pub later: Stamp,
    pub keep: bool,
}

impl Copied for Ask {
    fn copy(&self, alloc: Global) -> Result<Self, AllocError> {
        Ok(Ask {
            earlier: self.earlier.copy(alloc)?,
            later: self.later,
            keep: self.keep,
        })
    }
}

/// What an oracle answers to an ask.
#[derive(Drop)]
pub enum Outcome {
    /// The places of the earlier events for which a pair was added, counted from 0, in rising order.
    Settled { places: Items<u32> },
    /// The later event precedes the earlier one at this place, counted from 0.
    Precedes { place: u32 },
}

impl Copied for Outcome {
    fn copy(&self, alloc: Global) -> Result<Self, AllocError> {
        match self {
            Outcome::Settled { places } => Ok(Outcome::Settled {
                places: places.copy(alloc)?,
            }),
            Outcome::Precedes { place } => Ok(Outcome::Precedes { place: *place }),
        }
    }
}

/// What became of a message.
#[derive(Clone, Copy, PartialEq, Eq, Debug)]
pub enum Delivered {
    /// The addressee appended the ask.
    Taken,
    /// It had an ask at the position.
    Repeat,
    /// Its list ends before the position.
    Gap,
    /// It has stopped.
    Gone,
}

/// Why a call did nothing.
#[derive(Clone, Copy, PartialEq, Eq, Debug)]
pub enum ChainFault {
    /// The replica has stopped.
    Halted,
    /// The replica is the tail.
    Tail,
    /// There is no such position or message.
    Unknown,
    /// The replica is the only live one.
    Last,
    Memory,
}

impl From<AllocError> for ChainFault {
    ghost use Rattle.std.specs.Prelude.{◌≡◌};
    ghost use Rattle.oracle_chain.specs.declared.ask.ChainFault.TheVariants.{Memory};

    ghost from_gives = { λ _ fault. fault ≡ Memory };

    fn from(_error: AllocError) -> ChainFault {
        ChainFault::Memory
    }
}
