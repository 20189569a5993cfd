//! Pieces that are cut off a text one after another.
ghost use Rattle.std.specs.Prelude.{◌≡◌, ◌==◌, position};
ghost use Rattle.std.specs.Iterator.{YieldsFirstRef, item_count};
ghost use Rattle.weave_text.specs.Cutting.{is_empty, pieces_of, words_of};

use std::marker::Model;

/// The pieces of a text that are still to come, seen by contracts as the list of them.
///
/// They are cut off one after another, and take no memory.
#[derive(Drop)]
pub struct Pieces<'a> {
    at: u8,
    left: Option<&'a [u8]>,
}

impl<'a> Model for Pieces<'a> {
    ghost use Rattle.std.specs.Prelude.{ℕ, List, option_map};
    ghost use Rattle.weave_text.specs.Cutting.{pieces_left};

    ghost Value = { List (List ℕ) };

    ghost view = { λ pieces. pieces_left pieces.at (option_map (λ text. text.now) pieces.left) };
}

impl<'a> Pieces<'a> {
    /// What is before, between and after the bytes of a text that are this one.
    pub fn new(at: u8, text: &'a [u8]) -> Pieces<'a>
        ensures { result ≡ pieces_of at text.now }
    {
        Pieces {
            at,
            left: Some(text),
        }
    }

    /// The words of a line: what is before, between and after its spaces.
    pub fn words(line: &'a [u8]) -> Pieces<'a>
        ensures { result ≡ words_of line.now }
    {
        Pieces::new(b' ', line)
    }

    /// Whether none is to come.
    pub fn is_empty(&self) -> bool
        ensures { result ≡ is_empty self.now }
    {
        self.left.is_none()
    }
}

impl<'a> Iterator for Pieces<'a> {
    type Item = &'a [u8];

    ghost next_gives = { YieldsFirstRef (λ pieces. pieces) };

    ghost remaining = { item_count (λ pieces. pieces) };

    fn next(&mut self) -> Option<&'a [u8]> {
        let text = self.left?;
        match end_of_piece(self.at, text) {
            Some(end) => {
                self.left = Some(&text[end + 1..]);
                Some(&text[..end])
            }
            None => {
                self.left = None;
                Some(text)
            }
        }
    }
}

fn end_of_piece(at: u8, text: &[u8]) -> Option<usize>
    ensures { result ≡ position (λ byte. byte == at) text.now }
{
    text.iter().position(|byte| *byte == at)
}
