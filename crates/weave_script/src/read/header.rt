//! The first line of a script.
ghost use Rattle.std.specs.Prelude.{◌≡◌, map};
ghost use Rattle.weave_script.specs.Header.{header_of, header_with, is_version, sizes_of};
ghost use Rattle.weave_text.specs.Numbers.{is_number};

use crate::fault::Cause;
use crate::read::fields::number_in;
use weave_data::{MOST_GATES, MOST_SHARDS};
use weave_text::{Numeral, is, number_up_to};

/// What a header says.
#[derive(Clone, Copy)]
pub(crate) struct Header {
    /// In its version `link` is a join: it is version 2.
    pub(crate) joins: bool,
    pub(crate) gates: u32,
    pub(crate) shards: u32,
}

/// What the words of a header say.
pub(crate) fn header_of(words: &[&[u8]]) -> Result<Header, Cause>
    ensures { result ≡ header_of (map (λ word. word.now) words.now) }
{
    match words {
        [word, version, gates, shards]
            if is(word, b"weaver")
                && is_version(version)
                && is_number(gates)
                && is_number(shards) => { header_with(is(version, b"2"), gates, shards) }
        _ => Err(Cause::Header),
    }
}

fn is_version(word: &[u8]) -> bool
    ensures { result ≡ is_version word.now }
{
    is(word, b"1") || is(word, b"2")
}

fn header_with(joins: bool, gates: &[u8], shards: &[u8]) -> Result<Header, Cause>
    ensures { result ≡ header_with joins gates.now shards.now }
{
    let (gates, shards) = sizes_of(gates, shards)?;
    Ok(Header {
        joins,
        gates,
        shards,
    })
}

fn sizes_of(gates: &[u8], shards: &[u8]) -> Result<(u32, u32), Cause>
    ensures { result ≡ sizes_of gates.now shards.now }
{
    let gates = number_in(1, MOST_GATES, Cause::Gatekeepers, gates)?;
    let shards = number_in(1, MOST_SHARDS, Cause::Shards, shards)?;
    Ok((gates, shards))
}

fn is_number(word: &[u8]) -> bool
    ensures { result ≡ is_number word.now }
{
    match number_up_to(0, word) {
        Numeral::NoNumber => false,
        Numeral::TooLarge | Numeral::Number(_) => true,
    }
}
