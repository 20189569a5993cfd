//! The clause on numbers, where it breaks.

use explain_case::{Case, number_in, quote_reply};
use explain_lines::{Part, say_line};
use report_rules::Reply;
use std::alloc::{AllocError, Global};
use weave_text::Text;

/// How many commits there are.
pub(crate) fn commits(replies: &[Reply]) -> u64 {
    let mut count: u64 = 0;
    for reply in replies {
        if number_in(&reply.state).is_some() {
            count = count.saturating_add(1);
        }
    }
    count
}

/// A commit whose number is 0, above the number of commits, or that of an earlier reply.
#[derive(Clone, Copy)]
pub(crate) struct BadNumber {
    pub(crate) request: u32,
    pub(crate) number: u64,
    /// The earlier one.
    pub(crate) other: Option<u32>,
}

/// The first reply whose number is wrong by itself or with an earlier one.
pub(crate) fn first_bad_number(
    alloc: Global,
    case: &Case,
) -> Result<Option<BadNumber>, AllocError> {
    let count = commits(case.replies());
    let mut holders = no_holders(alloc, count)?;
    for reply in case.replies() {
        if let Some(number) = number_in(&reply.state) {
            let other = holder_at(holders.as_slice(), number);
            if number == 0 || number > count || other.is_some() {
                let request = reply.request;
                return Ok(Some(BadNumber {
                    request,
                    number,
                    other,
                }));
            }
            put_holder(holders.as_mut_slice(), number, reply.request);
        }
    }
    Ok(None)
}

// No request has any of the numbers up to this one.
fn no_holders(alloc: Global, count: u64) -> Result<Vec<Option<u32>>, AllocError> {
    let mut holders = Vec::new(alloc);
    for _ in 0..count {
        holders.push(None)?;
    }
    Ok(holders)
}

fn holder_at(holders: &[Option<u32>], number: u64) -> Option<u32> {
    if number == 0 {
        return None;
    }
    match holders.get(number.saturating_sub(1) as usize) {
        Some(holder) => *holder,
        None => None,
    }
}

fn put_holder(holders: &mut [Option<u32>], number: u64, request: u32) {
    if number == 0 {
        return;
    }
    if let Some(holder) = holders.get_mut(number.saturating_sub(1) as usize) {
        *holder = Some(request);
    }
}

/// Says why a number is wrong.
pub(crate) fn bad_number_words(
    alloc: Global,
    text: &mut Text,
    case: &Case,
    bad: BadNumber,
) -> Result<(), AllocError> {
    let count = commits(case.replies());
    match bad.other {
        Some(other) => twice_words(text, case, bad, other)?,
        None => alone_words(text, case, bad, count)?,
    }
    match first_unused(alloc, case, count)? {
        Some(number) => say_line(text, "No commit has the number %.", &[Part::Number(number)]),
        None => Ok(()),
    }
}

// A number that an earlier reply has.
fn twice_words(text: &mut Text, case: &Case, bad: BadNumber, other: u32) -> Result<(), AllocError> {
    say_line(
        text,
        "The commit number % is there twice, so one of these two is wrong:",
        &[Part::Number(bad.number)],
    )?;
    quote_reply(text, case, other)?;
    quote_reply(text, case, bad.request)
}

// A number that is out of its range.
fn alone_words(text: &mut Text, case: &Case, bad: BadNumber, count: u64) -> Result<(), AllocError> {
    say_line(
        text,
        "The commit number % is wrong; there are % commits, and their numbers go from 1 up to that:",
        &[Part::Number(bad.number), Part::Number(count)],
    )?;
    quote_reply(text, case, bad.request)
}

// The first number up to this one that no commit has.
fn first_unused(alloc: Global, case: &Case, count: u64) -> Result<Option<u64>, AllocError> {
    let mut holders = no_holders(alloc, count)?;
    for reply in case.replies() {
        if let Some(number) = number_in(&reply.state) {
            put_holder(holders.as_mut_slice(), number, reply.request);
        }
    }
    for (place, holder) in holders.as_slice().iter().enumerate() {
        if holder.is_none() {
            return Ok(Some((place as u64).saturating_add(1)));
        }
    }
    Ok(None)
}

/// Says where the clause breaks.
pub(crate) fn number_clause(
    alloc: Global,
    text: &mut Text,
    case: &Case,
    place: u64,
) -> Result<(), AllocError> {
    say_line(text, "It breaks at reply line %.", &[Part::Number(place)])?;
    match first_bad_number(alloc, case)? {
        Some(bad) => bad_number_words(alloc, text, case, bad),
        None => Ok(()),
    }
}
