//! Names that are those of no request, or of one of the other kind.

use crate::fields::{Kind, kind_of};
use crate::forms::form_of;
use crate::likeness::is_like;
use crate::refusal::Refusal;
use explain_lines::{Part, Spot, first_word, named, say, say_line};
use std::alloc::{AllocError, Global};
use std::collections::HashMap;
use weave_data::Name;
use weave_text::{Pieces, Text, is};

/// Says which name of the line is that of no request of the script.
pub(crate) fn request_words(text: &mut Text, refusal: &Refusal) -> Result<(), AllocError> {
    match first_unknown(refusal)? {
        Some(name) => unknown_words(text, refusal, name),
        None => other_kind(text, refusal),
    }
}

// The first name of the line that has to be a request's and isn't.
fn first_unknown<'a>(refusal: &Refusal<'_, 'a>) -> Result<Option<&'a [u8]>, AllocError> {
    let Some(form) = form_of(refusal.spots.place, refusal.at.text) else {
        return Ok(None);
    };
    let names = names_of_requests(refusal.alloc, refusal.spots.requests.as_slice())?;
    let mut forms = Pieces::words(form);
    let mut open = false;
    for word in Pieces::words(refusal.at.text) {
        if !open {
            let wanted = forms.next().unwrap_or(b"");
            open = is(wanted, b"REQUESTS");
            if kind_of(wanted, refusal.sizes) != Kind::Request {
                continue;
            }
        }
        if !is_request(&names, word) {
            return Ok(Some(word));
        }
    }
    Ok(None)
}

// The names of the requests.
fn names_of_requests(alloc: Global, requests: &[Spot]) -> Result<HashMap<Name, ()>, AllocError> {
    let mut names = HashMap::new(alloc);
    for request in requests {
        if let Some(name) = Name::parse(request.name()) {
            names.insert(name, ())?;
        }
    }
    Ok(names)
}

// Whether the word is one of them.
fn is_request(names: &HashMap<Name, ()>, word: &[u8]) -> bool {
    match Name::parse(word) {
        Some(name) => names.contains_key(&name),
        None => false,
    }
}

fn unknown_words(text: &mut Text, refusal: &Refusal, name: &[u8]) -> Result<(), AllocError> {
    say_line(
        text,
        "The script has no request of the name `%`.",
        &[Part::Shown(name)],
    )?;
    for request in refusal.spots.requests.as_slice() {
        if is_like(name, request.name()) {
            return say_line(
                text,
                "It has `%` (line %).",
                &[
                    Part::Word(request.name()),
                    Part::Number(u64::from(request.line)),
                ],
            );
        }
    }
    names_of(text, refusal.spots.requests.as_slice())
}

/// The most names that are listed.
const MOST_NAMES: usize = 12;

// Lists the first requests of the script.
fn names_of(text: &mut Text, requests: &[Spot]) -> Result<(), AllocError> {
    say(text, "Its requests:", &[])?;
    for request in requests.iter().take(MOST_NAMES) {
        text.word(request.name())?;
    }
    if requests.len() > MOST_NAMES {
        text.word(b"..")?;
    }
    text.end_line()
}

// The request is a transaction where a program is wanted, or the other way round.
fn other_kind(text: &mut Text, refusal: &Refusal) -> Result<(), AllocError> {
    let Some(request) = named(refusal.spots.requests.as_slice(), refusal.at.name()) else {
        return Ok(());
    };
    say_line(
        text,
        "`%` is a request of the script (line %), but a `%` there, so its reply begins with `%`.",
        &[
            Part::Word(request.name()),
            Part::Number(u64::from(request.line)),
            Part::Word(first_word(request.text)),
            Part::Word(first_word(request.text)),
        ],
    )
}
