//! Words that are numbers.
ghost use Rattle.std.specs.Prelude.{◌≡◌};
ghost use Rattle.std.specs.Char.{is_ascii_digit};
ghost use Rattle.std.specs.List.{list_all};
ghost use Rattle.weave_text.specs.Numbers.{is_number, number_of_word, number_up_to};

/// What a word is as a number.
#[derive(Clone, Copy, PartialEq, Eq, Debug)]
pub enum Numeral {
    /// Not a number.
    NoNumber,
    /// A number above what is allowed.
    TooLarge,
    /// This number.
    Number(u64),
}

/// The number that a word is: `0`, or decimal digits of which the first isn't 0. None also if it has more than 64 bits.
pub fn number(word: &[u8]) -> Option<u64>
    ensures { result ≡ number_of_word word.now }
{
    if !is_number(word) {
        return None;
    }
    let Ok(digits) = str::from_utf8(word) else {
        return None;
    };
    digits.parse::<u64>().ok()
}

/// What a word is as a number of at most `most`: `0`, or decimal digits of which the first isn't 0, however many.
pub fn number_up_to(most: u64, word: &[u8]) -> Numeral
    ensures { result ≡ number_up_to most word.now }
{
    match number(word) {
        Some(value) if value <= most => Numeral::Number(value),
        Some(_) => Numeral::TooLarge,
        None if is_number(word) => Numeral::TooLarge,
        None => Numeral::NoNumber,
    }
}

fn is_number(word: &[u8]) -> bool
    ensures { result ≡ is_number word.now }
{
    match word {
        [] => false,
        [first, rest @ ..] => (*first != b'0' || rest.is_empty()) && are_digits(word),
    }
}

fn are_digits(word: &[u8]) -> bool
    ensures { result ≡ list_all is_ascii_digit word.now }
{
    word.iter().all(|byte| byte.is_ascii_digit())
}
