//! Names, lists, clocks and stamps.

use std::alloc::Global;
use std::process::Abort;
use vector_stamp::{Clock, Stamp};
use weave_data::{Items, Name};

pub fn name(rt: &impl Abort, text: &str) -> Name {
    Name::parse(text.as_bytes()).expect(rt, "no name")
}

/// A name of two letters that has this number.
pub fn numbered(rt: &impl Abort, number: u8) -> Name {
    let tens = b'a' + number / 10;
    let ones = b'a' + number % 10;
    Name::parse(&[tens, ones]).expect(rt, "no name")
}

pub fn list<T: Drop, const N: usize>(rt: &impl Abort, alloc: Global, items: [T; N]) -> Items<T> {
    Items::from_vec(Vec::from_array(alloc, items).expect(rt, "memory"))
}

/// A clock of two gatekeepers.
pub fn clock(epoch: u64, first: u64, second: u64) -> Clock {
    Clock {
        epoch,
        counts: [first, second, 0, 0, 0, 0, 0, 0],
    }
}

/// A stamp of epoch 0 of three gatekeepers.
pub fn stamp(home: u32, first: u64, second: u64, third: u64) -> Stamp {
    stamp_in(0, home, [first, second, third, 0, 0, 0, 0, 0])
}

/// A stamp of any epoch and home.
pub fn stamp_in(epoch: u64, home: u32, counts: [u64; 8]) -> Stamp {
    Stamp {
        home,
        clock: Clock { epoch, counts },
    }
}
