//! A report drawn.

use crate::boxes::draw_boxes;
use crate::drawn::drawn_of;
use crate::frame::{begin, draw_arrows, draw_lanes, draw_vertices};
use crate::joined::{draw_sessions, sessions_of};
use crate::labels::{most_letters, reply_lines, report_text};
use crate::layout::{Corner, Plan, corners, plan_of};
use crate::legend::draw_legend;
use crate::marking::Verdict;
use crate::ports::{Arrow, Ported, arrows_of, columns_of, drawn_pairs};
use crate::replied::{Replies, reply_places};
use crate::sheet::{Sheet, Window};
use crate::title::draw_title;
use program_defs::Script;
use report_rules::Report;
use std::alloc::{AllocError, Global};
use weave_text::Text;

/// A report as an SVG, with what `check` says of it.
pub fn picture(
    alloc: Global,
    script: &Script,
    report: &Report,
    window: Window,
    verdict: Verdict,
) -> Result<Vec<u8>, AllocError> {
    let drawn = drawn_of(alloc, script, report, window.from, window.count)?;
    let printed = report_text(alloc, script, report)?;
    let lines = reply_lines(alloc, printed.as_slice())?;
    let places = reply_places(alloc, script, report)?;
    let replies = Replies {
        report,
        places: places.as_slice(),
    };
    let sheet = Sheet {
        script,
        report,
        window,
        verdict,
        lines: lines.as_slice(),
        replies,
        drawn: drawn.as_slice(),
    };
    drawn_sheet(alloc, &sheet)
}

fn drawn_sheet(alloc: Global, sheet: &Sheet) -> Result<Vec<u8>, AllocError> {
    let sessions = sessions_of(alloc, sheet.drawn)?;
    let columns = columns_of(alloc, sheet.script, sheet.drawn)?;
    let pairs = drawn_pairs(
        alloc,
        sheet.report,
        columns.as_slice(),
        sheet.drawn.len() as u64,
    )?;
    let bare = bare_plan(sheet, &pairs, sessions.len() as u64);
    let arrows = arrows_of(alloc, &bare, &pairs)?;
    let plan = with_pairs(bare, arrows.as_slice());
    let corners = corners(alloc, &plan, sheet.drawn)?;
    let mut text = Text::new(alloc);
    draw(
        &mut text,
        sheet,
        &plan,
        sessions.as_slice(),
        corners.as_slice(),
        arrows.as_slice(),
    )?;
    Ok(text.into_bytes())
}

// The plan without pairs.
fn bare_plan(sheet: &Sheet, pairs: &Ported, sessions: u64) -> Plan {
    plan_of(
        most_letters(sheet),
        most(pairs.counts.as_slice()),
        sheet.drawn.len() as u64,
        u64::from(sheet.script.gates),
        sessions,
    )
}

fn draw(
    text: &mut Text,
    sheet: &Sheet,
    plan: &Plan,
    sessions: &[u32],
    corners: &[Corner],
    arrows: &[Arrow],
) -> Result<(), AllocError> {
    begin(text, plan)?;
    draw_title(text, sheet, arrows)?;
    draw_lanes(text, plan)?;
    draw_sessions(text, plan, sessions, sheet.drawn, corners)?;
    draw_arrows(text, plan, corners, arrows, sheet)?;
    draw_vertices(text, plan, sheet.report, arrows)?;
    draw_boxes(text, plan, sheet, corners)?;
    draw_legend(text, plan)?;
    text.push(b"</svg>\n")
}

fn most(counts: &[u64]) -> u64 {
    let mut most = 0;
    for count in counts {
        most = most.max(*count);
    }
    most
}

fn with_pairs(plan: Plan, arrows: &[Arrow]) -> Plan {
    let mut tracks: u64 = 0;
    let mut pairs_end: u64 = 0;
    for arrow in arrows {
        tracks = tracks.max(arrow.track.saturating_add(1));
        pairs_end = pairs_end.max(arrow.right);
    }
    Plan {
        tracks,
        pairs_end,
        ..plan
    }
}
