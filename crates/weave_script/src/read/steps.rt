//! The lines of steps.
ghost use Rattle.std.specs.Prelude.{◌≡◌, map};
ghost use Rattle.weave_data.specs.Pairs.{at_key};
ghost use Rattle.weave_script.specs.Steps.{named_request, gate_word, shard_word, notice_word, epoch_word, step_of, step_of_one, step_of_two, step_of_three, hear_of, nop_of, apply_of, deliver_of, of_gate, of_shard, of_request};

use crate::fault::Cause;
use crate::limits::{MOST_EPOCH, MOST_NOTICE};
use crate::read::fields::{name_of, number_in};
use program_defs::Step;
use std::collections::HashMap;
use weave_data::Name;
use weave_text::is;

/// The numbers of gatekeepers and of shards of a script.
#[derive(Clone, Copy)]
pub(crate) struct Sizes {
    pub(crate) gates: u32,
    pub(crate) shards: u32,
}

/// The step of these words, by the places of the requests.
pub(crate) fn step_of(
    sizes: Sizes,
    places: &HashMap<Name, u32>,
    words: &[&[u8]],
) -> Result<Step, Cause>
    ensures { result
        ≡ step_of sizes.gates sizes.shards (λ name. at_key name places.now.entries) (map (λ word. word.now) words.now) }
{
    match words {
        [word, field] => step_of_one(sizes, places, word, field),
        [word, first, second] => step_of_two(sizes, word, first, second),
        [word, first, second, third] => step_of_three(sizes, word, first, second, third),
        _ => Err(Cause::Line),
    }
}

fn step_of_one(
    sizes: Sizes,
    places: &HashMap<Name, u32>,
    word: &[u8],
    field: &[u8],
) -> Result<Step, Cause>
    ensures { result
        ≡ step_of_one sizes.gates sizes.shards (λ name. at_key name places.now.entries) word.now field.now }
{
    if is(word, b"begin") {
        Ok(Step::Begin {
            request: named_request(places, field)?,
        })
    } else if is(word, b"judge") {
        Ok(Step::Judge {
            gate: gate_of(sizes, field)?,
        })
    } else if is(word, b"send") {
        Ok(Step::Send {
            gate: gate_of(sizes, field)?,
        })
    } else if is(word, b"say") {
        Ok(Step::Say {
            gate: gate_of(sizes, field)?,
        })
    } else if is(word, b"visit") {
        Ok(Step::Visit {
            request: named_request(places, field)?,
        })
    } else if is(word, b"reply") {
        Ok(Step::Reply {
            request: named_request(places, field)?,
        })
    } else if is(word, b"collect") {
        Ok(Step::Collect {
            shard: shard_of(sizes, field)?,
        })
    } else {
        Err(Cause::Line)
    }
}

fn step_of_two(sizes: Sizes, word: &[u8], first: &[u8], second: &[u8]) -> Result<Step, Cause>
    ensures { result ≡ step_of_two sizes.gates sizes.shards word.now first.now second.now }
{
    if is(word, b"hear") {
        Ok(Step::Hear {
            gate: gate_of(sizes, first)?,
            notice: notice_of(second)?,
        })
    } else if is(word, b"nop") {
        Ok(Step::Nop {
            gate: gate_of(sizes, first)?,
            shard: shard_of(sizes, second)?,
        })
    } else if is(word, b"apply") {
        Ok(Step::Apply {
            shard: shard_of(sizes, first)?,
            gate: gate_of(sizes, second)?,
        })
    } else if is(word, b"epoch") {
        Ok(Step::Epoch {
            gate: gate_of(sizes, first)?,
            epoch: epoch_of(second)?,
        })
    } else if is(word, b"restart") {
        Ok(Step::Restart {
            gate: gate_of(sizes, first)?,
            epoch: epoch_of(second)?,
        })
    } else {
        Err(Cause::Line)
    }
}

fn step_of_three(
    sizes: Sizes,
    word: &[u8],
    first: &[u8],
    second: &[u8],
    third: &[u8],
) -> Result<Step, Cause>
    ensures { result ≡ step_of_three sizes.gates sizes.shards word.now first.now second.now third.now }
{
    if !is(word, b"deliver") {
        return Err(Cause::Line);
    }
    Ok(Step::Deliver {
        gate: gate_of(sizes, first)?,
        shard: shard_of(sizes, second)?,
        number: notice_of(third)?,
    })
}

fn named_request(places: &HashMap<Name, u32>, word: &[u8]) -> Result<u32, Cause>
    ensures { result ≡ named_request (λ name. at_key name places.now.entries) word.now }
{
    let name = name_of(word)?;
    places.get(&name).copied().ok_or(Cause::Request)
}

fn gate_of(sizes: Sizes, word: &[u8]) -> Result<u32, Cause>
    ensures { result ≡ gate_word sizes.gates word.now }
{
    number_in(0, sizes.gates.saturating_sub(1), Cause::Gatekeeper, word)
}

fn shard_of(sizes: Sizes, word: &[u8]) -> Result<u32, Cause>
    ensures { result ≡ shard_word sizes.shards word.now }
{
    number_in(0, sizes.shards.saturating_sub(1), Cause::Shard, word)
}

// The number of a notice or a message.
fn notice_of(word: &[u8]) -> Result<u64, Cause>
    ensures { result ≡ notice_word word.now }
{
    Ok(u64::from(number_in(1, MOST_NOTICE, Cause::Number, word)?))
}

fn epoch_of(word: &[u8]) -> Result<u64, Cause>
    ensures { result ≡ epoch_word word.now }
{
    Ok(u64::from(number_in(1, MOST_EPOCH, Cause::Number, word)?))
}
