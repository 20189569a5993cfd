//! Lines of texts, and words of lines.
ghost use Rattle.std.specs.Prelude.{◌≡◌, ◌==◌, ◌<◌, ◌∷◌, [], length, map, position, take, IfOk, IfSome, MatchOption};
ghost use Rattle.std.specs.Str.{bytes_eq};
ghost use Rattle.weave_text.specs.Cutting.{lines_of, pieces_of, words_of, is_skipped};

use crate::cursor::Pieces;
use std::alloc::{AllocError, Global};

/// The first line of a text, and the text after the line feed that ends it. `None` if the text has no line.
pub fn first_line(text: &[u8]) -> Option<(&[u8], &[u8])>
    ensures lines { MatchOption result (lines_of text.now ≡ []) (λ cut. lines_of text.now
        ≡ cut.0.now ∷ lines_of cut.1.now) }
    ensures shorter { IfSome result (λ cut. length cut.1.now < length text.now) }
{
    if text.is_empty() {
        return None;
    }
    match first_line_feed(text) {
        Some(end) => Some((&text[..end], &text[end + 1..])),
        None => Some((text, &text[text.len()..])),
    }
}

/// Whether a line is skipped: it is empty, or begins with `#`.
pub fn is_skipped(line: &[u8]) -> bool
    ensures { result ≡ is_skipped line.now }
{
    match line {
        [] => true,
        [first, ..] => *first == b'#',
    }
}

/// A line's words: what is before, between and after its spaces; an empty word if two spaces meet, or one is at an end.
pub fn words(alloc: Global, line: &[u8]) -> Result<Vec<&[u8]>, AllocError>
    ensures { IfOk result (λ words. map (λ word. word.now) words.items ≡ words_of line.now) }
{
    pieces(alloc, b' ', line)
}

/// The first words of a line, at most this many. The rest of the line isn't read.
pub fn first_words(alloc: Global, most: usize, line: &[u8]) -> Result<Vec<&[u8]>, AllocError>
    ensures { IfOk result (λ words. map (λ word. word.now) words.items ≡ take most (words_of line.now)) }
{
    Pieces::words(line).take(most).collect(alloc)
}

/// The pieces of a text: what is before, between and after the occurrences of this byte.
pub fn pieces(alloc: Global, at: u8, text: &[u8]) -> Result<Vec<&[u8]>, AllocError>
    ensures { IfOk result (λ pieces. map (λ piece. piece.now) pieces.items ≡ pieces_of at text.now) }
{
    Pieces::new(at, text).collect(alloc)
}

/// Whether a word is this text.
pub fn is(word: &[u8], text: &[u8]) -> bool
    ensures { result ≡ bytes_eq word.now text.now }
{
    word == text
}

fn first_line_feed(text: &[u8]) -> Option<usize>
    ensures { result ≡ position (λ byte. byte == 10) text.now }
{
    text.iter().position(|byte| *byte == b'\n')
}
