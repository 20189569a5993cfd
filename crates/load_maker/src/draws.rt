//! Draws from a seeded random generator.
ghost use Rattle.std.specs.Prelude.{◌≡◌, ◌≤◌, ◌<◌, ◌%◌};
ghost use Rattle.load_maker.specs.Words.{later, words_from};

use rand_core::utils::NextWord;
use rand_pcg::Lcg64Xsh32;

/// A number below `n`: the next word modulo `n`.
pub fn draw(words: &mut Lcg64Xsh32, n: u32) -> u32
    requires { 1 ≤ n }
    ensures drawn { result ≡ words_from words.old 0 % n }
    ensures left { words_from words.new ≡ later (words_from words.old) }
    ensures small { result < n }
{
    words.next_word() % n
}
