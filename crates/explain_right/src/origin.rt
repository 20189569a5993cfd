//! Whether `run` or `trace` writes a right report.

use explain_case::{Case, quote};
use explain_lines::{Part, Spot, line_after, say_line};
use std::alloc::AllocError;
use weave_text::Text;

/// Says whether `run` or `trace` writes such a report.
pub(crate) fn origin_words(
    text: &mut Text,
    case: &Case,
    has_answers: bool,
    is_kept: bool,
) -> Result<(), AllocError> {
    if has_answers {
        return answer_words(text, case);
    }
    if is_kept {
        return Ok(());
    }
    say_line(
        text,
        "But `run` writes no such report: it promises more, and not all of that holds (below, at `no`).",
        &[],
    )
}

// Of a report with answers of steps.
fn answer_words(text: &mut Text, case: &Case) -> Result<(), AllocError> {
    match step_count(case) {
        None => say_line(
            text,
            "It has answers of steps (`did` lines), and the script has no steps. So neither `run` nor `trace` writes \
                it. The first:",
            &[],
        )?,
        Some(_) => say_line(
            text,
            "It has answers of steps (`did` lines), so it is a report of `trace`, and not of `run`. The first:",
            &[],
        )?,
    }
    if let Some(spot) = first_answer(case) {
        quote(text, case, spot)?;
    }
    text.push(b"They were read and not judged: no clause is about them.")?;
    number_words(text, case)
}

// How many steps and answers there are, if there are steps and the numbers differ.
fn number_words(text: &mut Text, case: &Case) -> Result<(), AllocError> {
    let steps = step_count(case).unwrap_or(0);
    let answers = case.report.answers.as_slice().len() as u64;
    if steps == 0 || steps == answers {
        return text.end_line();
    }
    say_line(
        text,
        " Steps of the script: %, answers: %; `trace` writes one answer for each step.",
        &[Part::Number(steps), Part::Number(answers)],
    )
}

// How many steps the script has, if it has any.
fn step_count(case: &Case) -> Option<u64> {
    match &case.script.steps {
        Some(steps) => match steps.as_slice().len() {
            0 => None,
            count => Some(count as u64),
        },
        None => None,
    }
}

// The line after the order.
fn first_answer<'a, 'b>(case: &Case<'a, 'b>) -> Option<Spot<'a>> {
    let order = case.spots.order?;
    line_after(case.input, order.line, 1)
}
