//! Answers to `price`. They are read from a list of words, since `;` among them is part of their form.
ghost use Rattle.std.specs.Prelude.{◌≡◌, [], None, map, position};
ghost use Rattle.weave_text.specs.Numbers.{is_number};
ghost use Rattle.weave_report.specs.Marks.{cut_first, is_equals};
ghost use Rattle.weave_report.specs.ReadAnswers.{Gives, GivesExactly};
ghost use Rattle.weave_report.specs.ReadingFields.{read_names};
ghost use Rattle.weave_report.specs.ReadingPriced.{bound_in, bound_of_cut, bounds_from, in_turn, is_next_after, is_mark, is_total_marked, is_priced_form, priced_at, priced_in, priced_walk_in, wide_number_in, wide_number_of};

use crate::fault::{LineFault, ReportCause};
use crate::read::fields::name_in;
use crate::read::record::cut_tag;
use program_defs::{Answer, Bound};
use std::alloc::Global;
use weave_data::{Items, Name};
use weave_text::{Numeral, is, number_up_to};

/// Whether the words have the form of an answer to `price`.
pub(crate) fn is_priced_form(words: &[&[u8]]) -> bool
    ensures { result ≡ is_priced_form (map (λ word. word.now) words.now) }
{
    match words {
        [word, total, rest @ ..] => is(word, b"price") && is_total_marked(total, mark_in(rest)),
        _ => false,
    }
}

// Whether the mark is at a place where it may be.
fn is_total_marked(total: &[u8], at: Option<usize>) -> bool
    ensures { result ≡ is_total_marked total.now at }
{
    match at {
        Some(at) => !is(total, b"none") || at == 0,
        None => false,
    }
}

// The place of the mark.
fn mark_in(words: &[&[u8]]) -> Option<usize>
    ensures { result ≡ position is_mark (map (λ word. word.now) words.now) }
{
    mark_among(words)
}

fn mark_among(words: &[&[u8]]) -> Option<usize>
    ensures { result ≡ position (λ word. is_mark word.now) words.now }
{
    words.iter().position(|word| is(word, b";"))
}

/// An answer to `price`, of words of its form.
pub(crate) fn priced_in(alloc: Global, words: &[&[u8]]) -> Result<Answer, LineFault>
    ensures { Gives result (priced_in (map (λ word. word.now) words.now)) }
{
    match words {
        [_word, total, rest @ ..] => priced_of(alloc, total, rest),
        _ => Err(LineFault::Refused(ReportCause::Line)),
    }
}

fn priced_of(alloc: Global, total: &[u8], words: &[&[u8]]) -> Result<Answer, LineFault>
    ensures { Gives result (priced_at total.now (map (λ word. word.now) words.now)
        (position is_mark (map (λ word. word.now) words.now))) }
{
    match mark_in(words) {
        Some(at) => {
            let (walk, total) = priced_walk_in(alloc, total, &words[..at])?;
            let bounds = bounds_in(alloc, &words[at + 1..])?;
            Ok(Answer::Priced {
                walk,
                total,
                bounds,
            })
        }
        None => Err(LineFault::Refused(ReportCause::Line)),
    }
}

// The walk and its price.
fn priced_walk_in(
    alloc: Global,
    total: &[u8],
    names: &[&[u8]],
) -> Result<(Option<Items<Name>>, u128), LineFault>
    ensures { Gives result (priced_walk_in total.now (map (λ word. word.now) names.now)) }
{
    if is(total, b"none") {
        return Ok((None, 0));
    }
    let price = wide_number_in(total)?;
    let walk = names_of(alloc, names)?;
    Ok((Some(walk), price))
}

fn names_of(alloc: Global, words: &[&[u8]]) -> Result<Items<Name>, LineFault>
    ensures { Gives result (read_names (map (λ word. word.now) words.now)) }
{
    let mut names = Items::new(alloc);
    for word in words {
        names.push(name_in(word)?)?;
    }
    Ok(names)
}

fn bounds_in(alloc: Global, words: &[&[u8]]) -> Result<Items<Bound>, LineFault>
    ensures { Gives result (bounds_from [] None (map (λ word. word.now) words.now)) }
{
    let mut bounds = Items::new(alloc);
    let mut last = None;
    for word in words {
        let Bound { vertex, price } = bound_in(last, word)?;
        bounds.push(Bound { vertex, price })?;
        last = Some(vertex);
    }
    Ok(bounds)
}

// A bound after the bound of this vertex.
fn bound_in(last: Option<Name>, word: &[u8]) -> Result<Bound, LineFault>
    ensures { GivesExactly result (bound_in last word.now) }
{
    let bound = bound_of_cut(word)?;
    if !is_next_after(last, bound.vertex) {
        return Err(LineFault::Refused(ReportCause::Line));
    }
    Ok(bound)
}

fn bound_of_cut(word: &[u8]) -> Result<Bound, LineFault>
    ensures { GivesExactly result (bound_of_cut (cut_first is_equals word.now)) }
{
    match cut_tag(word) {
        Some((vertex, _mark, price)) => Ok(Bound {
            vertex: name_in(vertex)?,
            price: wide_number_in(price)?,
        }),
        None => Err(LineFault::Refused(ReportCause::Line)),
    }
}

// Whether a vertex comes after this one, if there is one.
fn is_next_after(last: Option<Name>, vertex: Name) -> bool
    ensures { result ≡ is_next_after last vertex }
{
    match last {
        Some(last) => last < vertex,
        None => true,
    }
}

// A number of 128 bits.
fn wide_number_in(word: &[u8]) -> Result<u128, LineFault>
    ensures { GivesExactly result (wide_number_in word.now) }
{
    match wide_number(word) {
        Some(number) => Ok(number),
        None => Err(LineFault::Refused(ReportCause::Number)),
    }
}

fn wide_number(word: &[u8]) -> Option<u128>
    ensures { result ≡ wide_number_of word.now }
{
    if !is_number(word) {
        return None;
    }
    let Ok(digits) = str::from_utf8(word) else {
        return None;
    };
    digits.parse::<u128>().ok()
}

fn is_number(word: &[u8]) -> bool
    ensures { result ≡ is_number word.now }
{
    match number_up_to(0, word) {
        Numeral::NoNumber => false,
        Numeral::TooLarge => true,
        Numeral::Number(_) => true,
    }
}
