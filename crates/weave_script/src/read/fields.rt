//! Fields of lines.
ghost use Rattle.std.specs.Prelude.{◌≡◌};
ghost use Rattle.weave_script.specs.Fields.{name_word, number_in, at_least};

use crate::fault::Cause;
use weave_data::Name;
use weave_text::{Numeral, number_up_to};

/// The name that a word is.
pub(crate) fn name_of(word: &[u8]) -> Result<Name, Cause>
    ensures { result ≡ name_word word.now }
{
    Name::parse(word).ok_or(Cause::Name)
}

/// The number that a word is. Outside of least to most the cause is that of its place.
pub(crate) fn number_in(least: u32, most: u32, cause: Cause, word: &[u8]) -> Result<u32, Cause>
    ensures { result ≡ number_in least most cause word.now }
{
    match number_up_to(u64::from(most), word) {
        Numeral::NoNumber => Err(Cause::Number),
        Numeral::TooLarge => Err(cause),
        Numeral::Number(n) => at_least(least, cause, n as u32),
    }
}

fn at_least(least: u32, cause: Cause, n: u32) -> Result<u32, Cause>
    ensures { result ≡ at_least least cause n }
{
    if n < least {
        return Err(cause);
    }
    Ok(n)
}
