//! The legend.

use crate::layout::Plan;
use explain_lines::{Part, say_line};
use std::alloc::AllocError;
use weave_text::Text;

/// Draws the legend, in two rows.
pub(crate) fn draw_legend(text: &mut Text, plan: &Plan) -> Result<(), AllocError> {
    let top = plan.legend_top().saturating_add(16);
    sample(text, 10, top, b"committed", 0, b"committed transaction")?;
    sample(text, 220, top, b"finished", 9, b"finished program")?;
    sample(text, 400, top, b"conflict", 0, b"in conflict")?;
    sample(text, 550, top, b"refused", 0, b"refused")?;
    sample(
        text,
        680,
        top,
        b"open",
        0,
        b"without a reply (round: a program)",
    )?;
    let second = top.saturating_add(34);
    lines(text, second)
}

// A small box and what it means.
fn sample(
    text: &mut Text,
    x: u64,
    y: u64,
    class: &'static [u8],
    radius: u64,
    words: &'static [u8],
) -> Result<(), AllocError> {
    say_line(
        text,
        "<rect class='box %' x='%' y='%' width='36' height='20' rx='%'/><text x='%' y='%'>%</text>",
        &[
            Part::Word(class),
            Part::Number(x),
            Part::Number(y),
            Part::Number(radius),
            Part::Number(x.saturating_add(44)),
            Part::Number(y.saturating_add(14)),
            Part::Word(words),
        ],
    )
}

// The lines and what they mean.
fn lines(text: &mut Text, y: u64) -> Result<(), AllocError> {
    let middle = Part::Number(y.saturating_add(10));
    let base = Part::Number(y.saturating_add(14));
    say_line(
        text,
        "<path class='pair' d='M 10 % H 46'/><text x='54' y='%'>pair: the first before the second, at a vertex</text>",
        &[middle, base],
    )?;
    say_line(
        text,
        "<path class='session' d='M 400 % H 436'/><text x='444' y='%'>requests of one session</text>",
        &[middle, base],
    )?;
    say_line(
        text,
        "<text class='place' x='640' y='%'>7</text><text x='656' y='%'>place in the order</text>",
        &[base, base],
    )?;
    say_line(
        text,
        "<rect class='mark' x='820' y='%' width='36' height='16'/><text x='864' y='%'>what `check` names</text>",
        &[Part::Number(y.saturating_add(2)), base],
    )
}
