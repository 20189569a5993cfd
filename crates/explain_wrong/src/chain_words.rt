//! The chain by which one request precedes another.
ghost use Rattle.weave_data.specs.Facts.{AllHold};
ghost use Rattle.report_rules.specs.RightReport.{replies_clause};

use explain_case::{Case, quote};
use explain_lines::{Part, say, say_line};
use order_witness::{Link, chain_between, link_between};
use program_defs::Script;
use report_rules::Report;
use std::alloc::{AllocError, Global};
use weave_text::Text;

/// A shortest chain from one request to another: the requests after the first, up to the second; none if the first
/// doesn't precede the second. The clause on replies must hold.
pub(crate) fn chain_of(
    alloc: Global,
    script: &Script,
    report: &Report,
    a: u32,
    b: u32,
) -> Result<Option<Vec<usize>>, AllocError>
    requires { AllHold (replies_clause script.now report.now) }
{
    chain_between(alloc, script, report, a, b)
}

/// How many steps of a long chain are written at its start, and at its end.
const ENDS: usize = 10;

/// Writes the steps of a chain, a line each; of a long one the first and the last ones.
pub(crate) fn chain_words(
    text: &mut Text,
    case: &Case,
    first: u32,
    chain: &[usize],
) -> Result<(), AllocError> {
    let left_out = chain.len().saturating_sub(2 * ENDS);
    let mut from = first;
    for (place, request) in chain.iter().enumerate() {
        let to = u32::try_from(*request).unwrap_or(u32::MAX);
        if left_out == 0 || place < ENDS || place >= ENDS.saturating_add(left_out) {
            step_words(text, case, from, to)?;
        } else if place == ENDS {
            say_line(
                text,
                "    .. (% more steps)",
                &[Part::Number(left_out as u64)],
            )?;
        }
        from = to;
    }
    Ok(())
}

fn step_words(text: &mut Text, case: &Case, a: u32, b: u32) -> Result<(), AllocError> {
    say(
        text,
        "    `%` precedes `%`: ",
        &[case.word(a), case.word(b)],
    )?;
    match link_between(case.script, case.report, a, b) {
        Some(Link::Session) => say_line(
            text,
            "its stamp is before that one's, in their session.",
            &[],
        ),
        Some(Link::Stamp) => say_line(text, "its stamp is before that one's.", &[]),
        Some(Link::Joined(place)) => pair_words(text, case, place),
        None => text.end_line(),
    }
}

fn pair_words(text: &mut Text, case: &Case, place: u64) -> Result<(), AllocError> {
    say_line(text, "by the pair", &[])?;
    match case.spots.pairs.as_slice().get(place as usize) {
        Some(spot) => quote(text, case, *spot),
        None => say_line(text, "    number %", &[Part::Number(place)]),
    }
}
