//! Names that the tests have in common.

use std::process::Abort;
use weave_data::Name;

pub fn named(rt: &impl Abort, text: &[u8]) -> Name {
    Name::parse(text).expect(rt, "a name")
}

fn letter(n: usize) -> u8 {
    b'a' + (n % 26) as u8
}

// A name for each number below 456,976, in the order of the numbers.
pub fn numbered(rt: &impl Abort, n: usize) -> Name {
    let letters = [
        letter(n / 17576),
        letter(n / 676),
        letter(n / 26),
        letter(n),
    ];
    named(rt, &letters)
}
