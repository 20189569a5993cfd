//! The lines of an input, and sentences on them.
//!
//! `walk` notes which lines of an input say what requests, replies and pairs there are. `say` writes a sentence, and
//! shows what can't be seen in bytes that it quotes.
#![tactic(auto)]

mod sentence;
mod shown;
mod spots;

pub use sentence::{Part, say, say_line};
pub use spots::{Place, Spot, Spots, first_word, line_after, line_of, named, walk, word_at};
