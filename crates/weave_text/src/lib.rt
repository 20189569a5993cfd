//! Texts of lines of words: written, cut again, and the numbers in them.
//!
//! A text that is written of clean words comes back as these lines and words, a number's word comes back as the number,
//! and what is cut into words is these words with one space between.
#![tactic(auto)]

mod cursor;
mod cutting;
mod laws;
mod numbers;
mod text;

pub use cursor::Pieces;
pub use cutting::{first_line, first_words, is, is_skipped, pieces, words};
pub use laws::{
    clean_lines_come_back, cut_texts_are_joined, joined_pieces_come_back, lines_are_few,
    lines_follow_one_another, numbers_come_back, words_are_clean, words_lack_other_bytes,
};
pub use numbers::{Numeral, number, number_up_to};
pub use text::Text;
