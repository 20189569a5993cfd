//! How a change of a map is taken back.
ghost use Rattle.std.specs.Prelude.{◌≡◌, ◌≤◌, [], IfOk};
ghost use Rattle.std.specs.Vec.{vec_capacity};

use crate::name::Name;
use std::alloc::{AllocError, Global};
use std::marker::Model;

/// What takes back the change of one key of a map.
#[derive(Drop)]
pub enum Undo<T> {
    /// Writes the value that was at the key.
    Write { key: Name, value: T },
    /// Drops the key.
    Remove { key: Name },
    /// Puts the pair back that was taken out.
    PutBack { key: Name, value: T, room: Room<T> },
}

/// Places for pairs. Contracts see how many.
#[derive(Drop)]
pub struct Room<T> {
    block: Vec<(Name, T)>,
}

impl<T> Model for Room<T> {
    ghost use Rattle.std.specs.Prelude.{◌≡◌, ℕ, []};
    ghost use Rattle.std.specs.Vec.{vec_capacity};

    ghost Value = { ℕ };

    ghost view = { λ r. vec_capacity r.block };

    ghost invariant = { λ r. r.block.items ≡ [] };
}

impl<T> Room<T> {
    /// No places. It takes no memory.
    pub(crate) fn none(alloc: Global) -> Self {
        Room {
            block: Vec::new(alloc),
        }
    }

    /// At least this many places.
    pub(crate) fn new(alloc: Global, places: usize) -> Result<Self, AllocError>
        ensures { IfOk result (λ room. places ≤ room) }
    {
        Ok(Room {
            block: Vec::with_capacity(alloc, places)?,
        })
    }

    /// The places as an empty list.
    pub(crate) fn into_block(self) -> Vec<(Name, T)>
        ensures empty { result.items ≡ [] }
        ensures places { vec_capacity result ≡ self }
    {
        let Room { block } = self;
        block
    }
}
