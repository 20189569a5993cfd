//! How two stamps compare.

use crate::case::Case;
use explain_lines::{Part, say, say_line};
use std::alloc::AllocError;
use vector_stamp::{Clock, Relation};
use weave_text::Text;

/// Says how the stamps of two begun requests compare, and by which counts.
pub fn stamp_words(text: &mut Text, case: &Case, a: u32, b: u32) -> Result<(), AllocError> {
    let (Some(first), Some(second)) = (case.stamp(a), case.stamp(b)) else {
        return Ok(());
    };
    match first.clock.compare(&second.clock) {
        Relation::Before => before_words(text, case, a, b, &first.clock, &second.clock),
        Relation::After => before_words(text, case, b, a, &second.clock, &first.clock),
        Relation::Unordered => unordered_words(text, case, a, b, &first.clock, &second.clock),
    }
}

// The first clock is before the second.
fn before_words(
    text: &mut Text,
    case: &Case,
    a: u32,
    b: u32,
    first: &Clock,
    second: &Clock,
) -> Result<(), AllocError> {
    say(
        text,
        "The stamp of `%` is before that of `%`",
        &[case.word(a), case.word(b)],
    )?;
    if first.epoch < second.epoch {
        return say_line(
            text,
            ": its epoch is % and that one's %.",
            &[Part::Number(first.epoch), Part::Number(second.epoch)],
        );
    }
    say_line(
        text,
        ": no count of it is greater, and at least one is less.",
        &[],
    )
}

fn unordered_words(
    text: &mut Text,
    case: &Case,
    a: u32,
    b: u32,
    first: &Clock,
    second: &Clock,
) -> Result<(), AllocError> {
    say(
        text,
        "The stamps of `%` and `%` are unordered",
        &[case.word(a), case.word(b)],
    )?;
    match (lesser_count(first, second), lesser_count(second, first)) {
        (Some(of_a), Some(of_b)) => say_line(
            text,
            ": `%` has less of gatekeeper % (% and %), `%` less of gatekeeper % (% and %).",
            &[
                case.word(a),
                Part::Number(of_a.gate),
                Part::Number(of_a.less),
                Part::Number(of_a.more),
                case.word(b),
                Part::Number(of_b.gate),
                Part::Number(of_b.less),
                Part::Number(of_b.more),
            ],
        ),
        _ => say_line(text, ": they are the same clock.", &[]),
    }
}

// The counts of a gatekeeper in two clocks.
#[derive(Clone, Copy)]
struct Lesser {
    gate: u64,
    less: u64,
    more: u64,
}

// The first gatekeeper of which the first clock has a lesser count.
fn lesser_count(first: &Clock, second: &Clock) -> Option<Lesser> {
    let mut gate: u64 = 0;
    for (a, b) in first.counts.iter().zip(second.counts.iter()) {
        if *a < *b {
            return Some(Lesser {
                gate,
                less: *a,
                more: *b,
            });
        }
        gate = gate.saturating_add(1);
    }
    None
}

/// Whether the request has a stamp whose own count is 0.
pub fn is_unticked(case: &Case, request: u32) -> bool {
    match case.stamp(request) {
        Some(stamp) => stamp.own_count() == 0,
        None => false,
    }
}

/// Says of each of two requests if its stamp has 0 as its own count, after these spaces.
pub fn unticked_words(
    text: &mut Text,
    case: &Case,
    a: u32,
    b: u32,
    spaces: &'static [u8],
) -> Result<(), AllocError> {
    own_count_words(text, case, a, spaces)?;
    own_count_words(text, case, b, spaces)
}

fn own_count_words(
    text: &mut Text,
    case: &Case,
    request: u32,
    spaces: &'static [u8],
) -> Result<(), AllocError> {
    let Some(stamp) = case.stamp(request) else {
        return Ok(());
    };
    if stamp.own_count() > 0 {
        return Ok(());
    }
    say(
        text,
        "%No run writes the stamp of `%`: it counts 0 of gatekeeper %, its own, and a gatekeeper counts on before it \
            gives a stamp.",
        &[
            Part::Word(spaces),
            case.word(request),
            Part::Number(u64::from(stamp.home)),
        ],
    )?;
    if has_count(&stamp.clock) {
        text.push(b" Perhaps two of its counts are exchanged.")?;
    }
    text.end_line()
}

// Whether a count of the clock isn't 0.
fn has_count(clock: &Clock) -> bool {
    clock.counts.iter().any(|count| *count > 0)
}
