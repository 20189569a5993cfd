//! Pairs whose stamps aren't unordered.

use explain_case::{Case, quote};
use explain_lines::{Part, say_line};
use report_rules::Pair;
use std::alloc::AllocError;
use weave_text::Text;

/// Whether both requests of a pair have begun, and their stamps are unordered.
pub(crate) fn are_unordered(case: &Case, pair: &Pair) -> bool {
    match (case.stamp(pair.earlier), case.stamp(pair.later)) {
        (Some(first), Some(second)) => first.is_unordered(&second),
        _ => false,
    }
}

// Whether both requests of a pair have begun, and the stamp of one is before that of the other.
fn are_ordered(case: &Case, pair: &Pair) -> bool {
    case.stamp(pair.earlier).is_some()
        && case.stamp(pair.later).is_some()
        && !are_unordered(case, pair)
}

fn has_end(pair: &Pair, request: u32) -> bool {
    pair.earlier == request || pair.later == request
}

/// The one request of a pair that is in all other pairs whose stamps aren't unordered, if there are any. The pair is at
/// this place, from 1.
pub(crate) fn shared_end(case: &Case, pair: &Pair, place: u64) -> Option<u32> {
    let mut number: u64 = 0;
    let mut is_earlier = true;
    let mut is_later = true;
    for other in case.report.pairs.as_slice() {
        number = number.saturating_add(1);
        if number != place && are_ordered(case, other) {
            is_earlier = is_earlier && has_end(other, pair.earlier);
            is_later = is_later && has_end(other, pair.later);
        }
    }
    // Both or neither: also if there is no other pair.
    if is_earlier == is_later {
        return None;
    }
    Some(if is_earlier { pair.earlier } else { pair.later })
}

/// The most of these pairs that are written.
const MOST_PAIRS: u64 = 3;

/// Writes the other pairs whose stamps aren't unordered, all of which have this request; of many the first ones.
pub(crate) fn shared_words(
    text: &mut Text,
    case: &Case,
    request: u32,
    place: u64,
) -> Result<(), AllocError> {
    say_line(
        text,
        "`%` is in each pair that breaks the clause in this way. Besides this one:",
        &[case.word(request)],
    )?;
    let mut number: u64 = 0;
    let mut count: u64 = 0;
    for (pair, spot) in case
        .report
        .pairs
        .as_slice()
        .iter()
        .zip(case.spots.pairs.as_slice())
    {
        number = number.saturating_add(1);
        if number != place && are_ordered(case, pair) {
            count = count.saturating_add(1);
            if count <= MOST_PAIRS {
                quote(text, case, *spot)?;
            }
        }
    }
    left_out_words(text, count.saturating_sub(MOST_PAIRS))
}

fn left_out_words(text: &mut Text, count: u64) -> Result<(), AllocError> {
    if count == 0 {
        return Ok(());
    }
    say_line(text, "    .. (% more)", &[Part::Number(count)])
}
