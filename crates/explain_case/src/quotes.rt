//! Lines of the input, written with their numbers.

use crate::case::Case;
use explain_lines::{Part, Spot, say_line};
use std::alloc::AllocError;
use weave_text::Text;

/// Writes a line of the input with its number; one of the report with that in the report too.
pub fn quote(text: &mut Text, case: &Case, spot: Spot) -> Result<(), AllocError> {
    let first = match case.spots.report {
        Some(report) => report.line,
        None => u32::MAX,
    };
    if spot.line < first {
        return say_line(
            text,
            "    line %: %",
            &[Part::Number(u64::from(spot.line)), Part::Shown(spot.text)],
        );
    }
    let number = u64::from(spot.line.saturating_sub(first)).saturating_add(1);
    say_line(
        text,
        "    line %, % of the report: %",
        &[
            Part::Number(u64::from(spot.line)),
            Part::Number(number),
            Part::Shown(spot.text),
        ],
    )
}

/// Writes the line of a reply.
pub fn quote_reply(text: &mut Text, case: &Case, request: u32) -> Result<(), AllocError> {
    match case.spots.replies.as_slice().get(request as usize) {
        Some(spot) => quote(text, case, *spot),
        None => Ok(()),
    }
}

/// Writes the line of a request.
pub fn quote_request(text: &mut Text, case: &Case, request: u32) -> Result<(), AllocError> {
    match case.spots.requests.as_slice().get(request as usize) {
        Some(spot) => quote(text, case, *spot),
        None => Ok(()),
    }
}
