//! Operations of transactions.
ghost use Rattle.std.specs.Prelude.{◌≡◌, ◌+◌, ◌∷◌, [], count_by, IfOk};
ghost use Rattle.graph_ops.specs.Operations.{is_get};
ghost use Rattle.load_maker.specs.Generated.{operation_of, operations_of};
ghost use Rattle.load_maker.specs.Words.{words_from};

use crate::draws::draw;
use crate::names::{draw_edge, draw_key, draw_value, draw_vertex};
use graph_ops::Op;
use rand_pcg::Lcg64Xsh32;
use std::alloc::{AllocError, Global};
use weave_data::Items;

/// The most `get` operations of a script.
const MOST_GETS: u32 = weave_data::MOST_GETS as u32;

/// Operations of a transaction; `gets` counts the script's `get` operations.
pub fn draw_ops(
    alloc: Global,
    words: &mut Lcg64Xsh32,
    gets: &mut u32,
    count: u32,
) -> Result<Items<Op>, AllocError>
    ensures drawn { IfOk result (λ ops. (ops, words_from words.new)
        ≡ operations_of gets.old count (words_from words.old)) }
    ensures gets { IfOk result (λ ops. gets.new ≡ gets.old + count_by is_get ops) }
{
    let mut ops = Vec::with_capacity(alloc, count as usize)?;
    for _ in 0..count {
        ops.push(draw_op(words, gets))?;
    }
    Ok(Items::from_vec(ops))
}

fn draw_op(words: &mut Lcg64Xsh32, gets: &mut u32) -> Op
    ensures drawn { (result, words_from words.new) ≡ operation_of gets.old (words_from words.old) }
    ensures gets { gets.new ≡ gets.old + count_by is_get (result ∷ []) }
{
    let v = draw_vertex(words);
    match draw(words, 8) {
        0..=2 => Op::Create { v },
        3 => Op::Set {
            v,
            key: draw_key(words),
            value: draw_value(words),
        },
        4 => Op::Link {
            v,
            edge: draw_edge(words),
            target: draw_vertex(words),
        },
        5 if *gets < MOST_GETS => {
            *gets += 1;
            Op::Get { v }
        }
        5 => Op::Delete { v },
        6 => Op::Tag {
            v,
            edge: draw_edge(words),
            key: draw_key(words),
            value: draw_value(words),
        },
        _ => Op::Unlink {
            v,
            edge: draw_edge(words),
        },
    }
}
