//! Atomic steps.
ghost use Rattle.std.specs.Prelude.{◌≡◌, ◌≤◌, IfOk};
ghost use Rattle.load_maker.specs.Generated.{drawn_step};
ghost use Rattle.load_maker.specs.Words.{drawn_list, words_from};

use crate::draws::draw;
use program_defs::Step;
use rand_pcg::Lcg64Xsh32;
use std::alloc::{AllocError, Global};
use weave_data::Items;

/// Steps on a script of `size` requests.
pub fn draw_steps(
    alloc: Global,
    words: &mut Lcg64Xsh32,
    size: u32,
    count: u32,
) -> Result<Items<Step>, AllocError>
    requires { 1 ≤ size }
    ensures { IfOk result (λ steps. (steps, words_from words.new)
        ≡ drawn_list (λ _ words. drawn_step size words) count (words_from words.old)) }
{
    let mut steps = Vec::with_capacity(alloc, count as usize)?;
    for _ in 0..count {
        steps.push(draw_step(words, size))?;
    }
    Ok(Items::from_vec(steps))
}

fn draw_step(words: &mut Lcg64Xsh32, size: u32) -> Step
    requires { 1 ≤ size }
    ensures { (result, words_from words.new) ≡ drawn_step size (words_from words.old) }
{
    match draw(words, 10) {
        0..=1 => Step::Begin {
            request: draw(words, size),
        },
        2 => Step::Judge {
            gate: draw(words, 3),
        },
        3 => Step::Send {
            gate: draw(words, 3),
        },
        4 => Step::Say {
            gate: draw(words, 3),
        },
        5 => Step::Hear {
            gate: draw(words, 3),
            notice: 1 + u64::from(draw(words, size)),
        },
        6 => Step::Nop {
            gate: draw(words, 3),
            shard: draw(words, 4),
        },
        7 => Step::Deliver {
            gate: draw(words, 3),
            shard: draw(words, 4),
            number: 1 + u64::from(draw(words, 20)),
        },
        8 => Step::Apply {
            shard: draw(words, 4),
            gate: draw(words, 3),
        },
        _ => Step::Reply {
            request: draw(words, size),
        },
    }
}
