//! Why an operation is refused.

use explain_case::{Case, quote};
use explain_lines::{Part, line_after, say_line};
use graph_ops::Reason;
use std::alloc::AllocError;
use weave_text::Text;

// The word of a reason.
fn word_of(reason: Reason) -> &'static [u8] {
    match reason {
        Reason::Exists => b"exists",
        Reason::Missing => b"missing",
        Reason::NoKey => b"no_key",
        Reason::EdgeExists => b"edge_exists",
        Reason::NoEdge => b"no_edge",
        Reason::Full => b"full",
        Reason::NoTarget => b"no_target",
    }
}

// What a reason says.
fn meaning_of(reason: Reason) -> &'static [u8] {
    match reason {
        Reason::Exists => b"the vertex is there already",
        Reason::Missing => b"the vertex isn't there",
        Reason::NoKey => b"there is no such property or tag",
        Reason::EdgeExists => b"the vertex has an edge of this name already",
        Reason::NoEdge => b"the vertex has no edge of this name",
        Reason::Full => b"it would be one property, edge or tag too many",
        Reason::NoTarget => b"the edge's target isn't there",
    }
}

/// Says which operation of a transaction is refused, and why.
pub(crate) fn stopped_words(
    text: &mut Text,
    case: &Case,
    request: u32,
    op: u32,
    reason: Reason,
) -> Result<(), AllocError> {
    say_line(
        text,
        "    operation % of `%` is refused for `%`: %:",
        &[
            Part::Number(u64::from(op)),
            case.word(request),
            Part::Word(word_of(reason)),
            Part::Word(meaning_of(reason)),
        ],
    )?;
    quote_operation(text, case, request, op)
}

/// Writes the line of an operation.
pub(crate) fn quote_operation(
    text: &mut Text,
    case: &Case,
    request: u32,
    op: u32,
) -> Result<(), AllocError> {
    let Some(spot) = case.spots.requests.as_slice().get(request as usize) else {
        return Ok(());
    };
    match line_after(case.input, spot.line, u64::from(op)) {
        Some(found) => quote(text, case, found),
        None => Ok(()),
    }
}
