//! The title, and what is left out.

use crate::drawn::Drawn;
use crate::marking::Mark;
use crate::ports::Arrow;
use crate::sheet::{Sheet, Window};
use explain_lines::{Part, say, say_line};
use program_defs::Script;
use report_rules::Report;
use std::alloc::AllocError;
use weave_text::Text;

/// Writes what is drawn, with these pairs, how much is left out, and what `check` says.
pub(crate) fn draw_title(
    text: &mut Text,
    sheet: &Sheet,
    arrows: &[Arrow],
) -> Result<(), AllocError> {
    let Sheet {
        script,
        report,
        window,
        drawn,
        ..
    } = *sheet;
    let listed = listed_in(drawn);
    let unlisted = (drawn.len() as u64).saturating_sub(listed);
    let pairs = arrows.len() as u64;
    text.push(b"<text class='title' x='10' y='24'>")?;
    range_words(text, report, window, listed)?;
    unlisted_words(text, unlisted)?;
    say_line(
        text,
        "</text><text class='small' x='10' y='42'>left out: % of the order, % that aren't in it, % pairs</text>",
        &[
            Part::Number((report.order.as_slice().len() as u64).saturating_sub(listed)),
            Part::Number(unlisted_in(script, report).saturating_sub(unlisted)),
            Part::Number((report.pairs.as_slice().len() as u64).saturating_sub(pairs)),
        ],
    )?;
    draw_verdict(text, sheet, arrows)
}

// Writes what `check` says, and whether what it names is left out.
fn draw_verdict(text: &mut Text, sheet: &Sheet, arrows: &[Arrow]) -> Result<(), AllocError> {
    let class: &[u8] = if sheet.verdict.is_right {
        b"verdict"
    } else {
        b"verdict wrong"
    };
    let more: &[u8] = if is_mark_drawn(sheet, arrows) {
        b""
    } else {
        b" (what it names is left out)"
    };
    say_line(
        text,
        "<text class='%' x='10' y='60'>check: %%</text>",
        &[
            Part::Word(class),
            Part::Xml(sheet.verdict.line),
            Part::Word(more),
        ],
    )
}

fn is_mark_drawn(sheet: &Sheet, arrows: &[Arrow]) -> bool {
    match sheet.verdict.mark {
        Mark::Nothing => true,
        Mark::Request(request) => is_drawn(sheet, request),
        Mark::Listed { request, .. } => is_drawn(sheet, request),
        Mark::Pair(number) => arrows.iter().any(|arrow| arrow.number == number),
    }
}

fn is_drawn(sheet: &Sheet, request: u32) -> bool {
    sheet.drawn.iter().any(|drawn| drawn.request == request)
}

fn range_words(
    text: &mut Text,
    report: &Report,
    window: Window,
    listed: u64,
) -> Result<(), AllocError> {
    let all = report.order.as_slice().len() as u64;
    if listed == 0 {
        return say(
            text,
            "The report: none of the % requests in the order",
            &[Part::Number(all)],
        );
    }
    let last = window
        .from
        .saturating_add(window.count)
        .saturating_sub(1)
        .min(all);
    say(
        text,
        "The report: requests % to % of the % in the order",
        &[
            Part::Number(window.from),
            Part::Number(last),
            Part::Number(all),
        ],
    )
}

// How many of the drawn requests aren't in the order.
fn unlisted_words(text: &mut Text, count: u64) -> Result<(), AllocError> {
    match count {
        0 => Ok(()),
        1 => text.push(b", and 1 that isn't in it"),
        _ => say(text, ", and % that aren't in it", &[Part::Number(count)]),
    }
}

fn listed_in(drawn: &[Drawn]) -> u64 {
    let mut count: u64 = 0;
    for request in drawn {
        if request.place > 0 {
            count = count.saturating_add(1);
        }
    }
    count
}

// How many requests aren't in the order.
fn unlisted_in(script: &Script, report: &Report) -> u64 {
    let all = script.requests.as_slice().len() as u64;
    all.saturating_sub(report.order.as_slice().len() as u64)
}
