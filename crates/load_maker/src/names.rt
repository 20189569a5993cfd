//! Names of a letter and a number.
ghost use Rattle.std.specs.Prelude.{◌≡◌, ◌%◌, [], ◌∷◌, ◌&&◌, IsTrue, nat_le, codes};
ghost use Rattle.load_maker.specs.Generated.{numbered_name};
ghost use Rattle.load_maker.specs.Words.{later, words_from};

use crate::draws::draw;
use itoa::Buffer;
use rand_pcg::Lcg64Xsh32;
use weave_data::Name;

/// The name of a small letter and a number, as `v12`.
pub fn numbered(letter: u8, number: u32) -> Name
    requires { IsTrue (nat_le 97 letter && nat_le letter 122) }
    ensures { result ≡ numbered_name (letter ∷ []) number }
{
    let mut buffer = Buffer::new();
    let digits = buffer.format(number).as_bytes();
    let mut bytes = [letter; 11];
    let len = 1 + digits.len();
    bytes[1..len].copy_from_slice(digits);
    Name::parse(&bytes[..len]).unwrap()
}

/// A vertex, from `v0` to `v39`.
pub fn draw_vertex(words: &mut Lcg64Xsh32) -> Name
    ensures drawn { result ≡ numbered_name (codes "v") (words_from words.old 0 % 40) }
    ensures left { words_from words.new ≡ later (words_from words.old) }
{
    numbered(b'v', draw(words, 40))
}

/// An edge, from `e0` to `e5`.
pub fn draw_edge(words: &mut Lcg64Xsh32) -> Name
    ensures drawn { result ≡ numbered_name (codes "e") (words_from words.old 0 % 6) }
    ensures left { words_from words.new ≡ later (words_from words.old) }
{
    numbered(b'e', draw(words, 6))
}

/// A key, from `k0` to `k3`.
pub fn draw_key(words: &mut Lcg64Xsh32) -> Name
    ensures drawn { result ≡ numbered_name (codes "k") (words_from words.old 0 % 4) }
    ensures left { words_from words.new ≡ later (words_from words.old) }
{
    numbered(b'k', draw(words, 4))
}

/// A value, from `x0` to `x9`.
pub fn draw_value(words: &mut Lcg64Xsh32) -> Name
    ensures drawn { result ≡ numbered_name (codes "x") (words_from words.old 0 % 10) }
    ensures left { words_from words.new ≡ later (words_from words.old) }
{
    numbered(b'x', draw(words, 10))
}
