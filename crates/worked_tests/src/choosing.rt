//! Reports with choices. Each way to choose is a report, of which both judges have to say the same.

use crate::calling::check;
use crate::ended::{Ended, done};
use crate::slow::slow_line;
use std::alloc::{AllocError, Global};
use weave_text::Text;

/// What is said of the reports that the input stands for: a line for each different answer, in order, after how many
/// reports have it. Between two lines `then` is a choice, and a line `or` is between what can be chosen.
pub fn check_each(alloc: Global, input: &[u8]) -> Result<Ended, AllocError> {
    let mut lines = Vec::new(alloc);
    for text in &texts_of(alloc, str::from_utf8(input).unwrap_or(""))? {
        lines.push(line_of(alloc, text.as_bytes())?)?;
    }
    lines.as_mut_slice().sort_unstable();
    counted(alloc, lines.as_slice())
}

// The texts that a text with choices stands for.
fn texts_of(alloc: Global, text: &str) -> Result<Vec<String>, AllocError> {
    let mut texts = Vec::new(alloc);
    texts.push(String::new(alloc))?;
    for choice in text.split("then\n") {
        texts = longer_texts(alloc, texts.as_slice(), choice)?;
    }
    Ok(texts)
}

// Each text with each of what can be chosen after it.
fn longer_texts(alloc: Global, texts: &[String], choice: &str) -> Result<Vec<String>, AllocError> {
    let mut longer = Vec::new(alloc);
    for text in texts {
        add_longer(&mut longer, text.as_str(), choice)?;
    }
    Ok(longer)
}

fn add_longer(longer: &mut Vec<String>, text: &str, choice: &str) -> Result<(), AllocError> {
    let alloc = *longer.allocator();
    for chosen in choice.split("or\n") {
        longer.push(format!(in alloc; "{text}{chosen}")?)?;
    }
    Ok(())
}

/// The line that both judges say of an input.
pub fn line_of(alloc: Global, input: &[u8]) -> Result<String, AllocError> {
    let Ended { text, .. } = check(alloc, input)?;
    if text.as_slice() != slow_line(alloc, input)?.as_slice() {
        return String::from_str(alloc, "the slow judge says something else\n");
    }
    String::from_str(
        alloc,
        str::from_utf8(text.as_slice()).unwrap_or("no text\n"),
    )
}

/// Each of the lines, which are in order, once, after how often it is there.
pub fn counted(alloc: Global, lines: &[String]) -> Result<Ended, AllocError> {
    let mut text = Text::new(alloc);
    let mut count: u64 = 0;
    for (place, line) in lines.iter().enumerate() {
        count = count.saturating_add(1);
        let next = lines.get(place.saturating_add(1));
        if next.map(|next| next.as_str()) != Some(line.as_str()) {
            text.number(count)?;
            text.push(b" ")?;
            text.push(line.as_bytes())?;
            count = 0;
        }
    }
    Ok(done(text.into_bytes()))
}
