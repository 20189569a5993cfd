//! Lines of a first word and fields of one kind.
ghost use Rattle.std.specs.Prelude.{◌≡◌, ◌++◌, ◌∷◌, [], map, OnOk};
ghost use Rattle.std.specs.Fmt.{decimal};
ghost use Rattle.std.specs.List.{AllByRecursion};
ghost use Rattle.weave_text.specs.Lines.{line_text, spaced_words};
ghost use Rattle.weave_script.specs.Scripts.{IsName};

use std::alloc::AllocError;
use weave_data::Name;
use weave_text::Text;

/// A line with names after its first word.
pub fn print_names(text: &mut Text, word: &[u8], names: &[Name]) -> Result<(), AllocError>
    ensures text { OnOk result (text.new ≡ text.old ++ line_text (word.now ∷ names.now)) }
    ensures typed { OnOk result (AllByRecursion IsName names.now) }
{
    text.push(word)?;
    push_names(text, names)?;
    text.end_line()?;
    Ok(())
}

/// A line with numbers after its first word.
pub fn print_numbers(text: &mut Text, word: &[u8], numbers: &[u64]) -> Result<(), AllocError>
    ensures { OnOk result (text.new ≡ text.old ++ line_text (word.now ∷ map decimal numbers.now)) }
{
    text.push(word)?;
    push_numbers(text, numbers)?;
    text.end_line()?;
    Ok(())
}

/// A line with a request's name, which may be empty, after its first word.
pub fn print_named(text: &mut Text, word: &[u8], name: &[u8]) -> Result<(), AllocError>
    ensures { OnOk result (text.new ≡ text.old ++ line_text (word.now ∷ name.now ∷ [])) }
{
    text.push(word)?;
    text.word(name)?;
    text.end_line()?;
    Ok(())
}

// The names, with a space before each.
fn push_names(text: &mut Text, names: &[Name]) -> Result<(), AllocError>
    ensures text { OnOk result (text.new ≡ text.old ++ spaced_words names.now) }
    ensures typed { OnOk result (AllByRecursion IsName names.now) }
{
    for name in names {
        text.word(name.bytes())?;
    }
    Ok(())
}

// The numbers, with a space before each.
fn push_numbers(text: &mut Text, numbers: &[u64]) -> Result<(), AllocError>
    ensures { OnOk result (text.new ≡ text.old ++ spaced_words (map decimal numbers.now)) }
{
    for number in numbers {
        text.number_word(*number)?;
    }
    Ok(())
}
