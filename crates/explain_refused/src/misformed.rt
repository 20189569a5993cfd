//! Lines whose first word may be there, and whose other words aren't in its form.

use crate::answer_words::answer_words;
use crate::fields::{BadField, count_of, first_bad, first_missing, kind_of};
use crate::forms::{form_of, is_fixed, nearest_form};
use crate::meanings::{kind_words, meaning_of};
use crate::refusal::Refusal;
use explain_lines::{Part, say, say_line, word_at};
use std::alloc::AllocError;
use weave_text::Text;

/// Says which word of the line is the first that isn't in its form, or which one is missing.
pub(crate) fn misformed(text: &mut Text, refusal: &Refusal) -> Result<(), AllocError> {
    let place = refusal.spots.place;
    let line = refusal.at.text;
    if form_of(place, line).is_some() {
        return answer_words(text, refusal);
    }
    let Some(form) = nearest_form(place, line, refusal.sizes) else {
        return Ok(());
    };
    let bad = first_bad(form, line, refusal.sizes);
    match (first_missing(form, line), bad) {
        (Some((place, _)), Some(bad)) if bad.place < place => unfit(text, form, bad),
        (Some((place, wanted)), _) => say_line(
            text,
            "For the form `%` its word % would have to be `%`.",
            &[Part::Word(form), Part::Number(place), Part::Word(wanted)],
        ),
        (None, Some(bad)) => unfit(text, form, bad),
        (None, None) => miscounted(text, refusal, form),
    }
}

// A field isn't what it has to be, and the number of words isn't that of the form.
fn unfit(text: &mut Text, form: &'static [u8], bad: BadField) -> Result<(), AllocError> {
    say_line(
        text,
        "For the form `%` its word % would have to be % (% in the form, %), and it is `%`.",
        &[
            Part::Word(form),
            Part::Number(bad.place),
            Part::Word(kind_words(bad.kind)),
            Part::Word(bad.wanted),
            Part::Word(meaning_of(bad.wanted)),
            Part::Shown(bad.word),
        ],
    )
}

// Its words are those of the form, and too few or too many.
fn miscounted(text: &mut Text, refusal: &Refusal, form: &'static [u8]) -> Result<(), AllocError> {
    let has = count_of(refusal.at.text, b' ');
    let wanted = count_of(form, b' ');
    if has < wanted {
        return too_few(text, refusal, form, has);
    }
    let after = wanted.saturating_add(1);
    say_line(
        text,
        if has == after { ONE_MORE } else { MORE },
        &[
            Part::Number(has),
            Part::Number(wanted),
            Part::Word(form),
            Part::Number(after),
            Part::Shown(word_at(refusal.at.text, wanted as usize).unwrap_or(b"")),
        ],
    )
}

const ONE_MORE: &str =
    "It has % words, of which the first % have the form `%`: word %, `%`, is one too many.";

const MORE: &str =
    "It has % words, of which the first % have the form `%`: those from word %, `%`, on are too many.";

// The words from one of the form on are missing.
fn too_few(
    text: &mut Text,
    refusal: &Refusal,
    form: &'static [u8],
    has: u64,
) -> Result<(), AllocError> {
    let wanted = count_of(form, b' ');
    say(
        text,
        "The form `%` has % words, and this line has %. So ",
        &[Part::Word(form), Part::Number(wanted), Part::Number(has)],
    )?;
    let word = word_at(form, has as usize).unwrap_or(b"");
    missing(text, refusal, word)?;
    say_line(text, ending_of(word, has, wanted), &[])
}

// How the sentence on a missing word ends, in a line that has fewer words than are wanted.
fn ending_of(word: &[u8], has: u64, wanted: u64) -> &'static str {
    if is_fixed(word) || wanted == 2 {
        return ".";
    }
    if wanted > has.saturating_add(1) {
        return ", and what follows it.";
    }
    ", or a word before it."
}

// Says that a word of the form is missing.
fn missing(text: &mut Text, refusal: &Refusal, word: &'static [u8]) -> Result<(), AllocError> {
    if is_fixed(word) {
        return say(text, missing_fixed(word), &[Part::Word(word)]);
    }
    say(
        text,
        "% is missing (%, %)",
        &[
            Part::Word(word),
            Part::Word(kind_words(kind_of(word, refusal.sizes))),
            Part::Word(meaning_of(word)),
        ],
    )
}

// A sentence whose `%`, if it has one, is the fixed word that is missing.
fn missing_fixed(word: &[u8]) -> &'static str {
    match word {
        b"show" => "the program is missing (`show`, `reach`, `around`, `path` or `price`)",
        b"begun" => "its outcome is missing (`begun`, `committed`, `conflict` or `refused`)",
        b"running" => "its outcome is missing (`running` or `done`)",
        _ => "the word `%` is missing",
    }
}
