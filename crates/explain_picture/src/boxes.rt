//! The boxes of requests.

use crate::drawn::Drawn;
use crate::labels::{Label, label_of};
use crate::layout::{BOX_HEIGHT, Corner, Plan};
use crate::sheet::Sheet;
use explain_lines::{Part, say, say_line};
use program_defs::{Script, Work};
use report_rules::ReplyState;
use std::alloc::AllocError;
use weave_text::Text;

/// Draws a box for each request, and the number of its place under it.
pub(crate) fn draw_boxes(
    text: &mut Text,
    plan: &Plan,
    sheet: &Sheet,
    corners: &[Corner],
) -> Result<(), AllocError> {
    for (request, corner) in sheet.drawn.iter().zip(corners) {
        draw_box(text, plan, sheet, *request, *corner)?;
    }
    Ok(())
}

fn draw_box(
    text: &mut Text,
    plan: &Plan,
    sheet: &Sheet,
    drawn: Drawn,
    corner: Corner,
) -> Result<(), AllocError> {
    let label = label_of(sheet, drawn.request);
    draw_shape(text, plan, sheet, drawn.request, corner, &label)?;
    draw_label(text, plan, corner, &label)?;
    if sheet.verdict.mark.is_request(drawn.request) {
        draw_mark(text, plan, corner)?;
    }
    draw_place(text, plan, corner, drawn.place)
}

// Whether the request is a program.
fn is_program(script: &Script, request: u32) -> bool {
    match script.requests.as_slice().get(request as usize) {
        Some(request) => matches!(request.work, Work::Look(_)),
        None => false,
    }
}

// The class of a box: how its request ended.
fn class_of(sheet: &Sheet, request: u32) -> &'static [u8] {
    match sheet.replies.reply_of(request) {
        Some(reply) => match reply.state {
            ReplyState::Committed { .. } => b"committed",
            ReplyState::Finished(_) => b"finished",
            ReplyState::Conflict { .. } => b"conflict",
            ReplyState::Refused { .. } => b"refused",
            ReplyState::Begun | ReplyState::Unbegun => b"open",
        },
        None => b"open",
    }
}

fn draw_shape(
    text: &mut Text,
    plan: &Plan,
    sheet: &Sheet,
    request: u32,
    corner: Corner,
    label: &Label,
) -> Result<(), AllocError> {
    let class = class_of(sheet, request);
    let radius = if is_program(sheet.script, request) {
        14
    } else {
        0
    };
    say_line(
        text,
        "<g><title>%</title><rect class='box %' x='%' y='%' width='%' height='%' rx='%'/></g>",
        &[
            Part::Xml(label.line),
            Part::Word(class),
            Part::Number(corner.x),
            Part::Number(corner.y),
            Part::Number(plan.box_width),
            Part::Number(BOX_HEIGHT),
            Part::Number(radius),
        ],
    )
}

fn draw_label(
    text: &mut Text,
    plan: &Plan,
    corner: Corner,
    label: &Label,
) -> Result<(), AllocError> {
    let x = corner.x.saturating_add(7);
    draw_words(
        text,
        plan,
        b"name",
        x,
        corner.y.saturating_add(15),
        label.name,
        b"",
    )?;
    draw_words(
        text,
        plan,
        b"stamp",
        x,
        corner.y.saturating_add(30),
        label.stamp,
        b"",
    )?;
    draw_words(
        text,
        plan,
        b"outcome",
        x,
        corner.y.saturating_add(45),
        label.outcome,
        label.detail,
    )
}

// Writes a text and, after a space, a second one; what doesn't fit is cut.
fn draw_words(
    text: &mut Text,
    plan: &Plan,
    class: &[u8],
    x: u64,
    y: u64,
    words: &[u8],
    more: &[u8],
) -> Result<(), AllocError> {
    say(
        text,
        "<text class='%' x='%' y='%'>",
        &[Part::Word(class), Part::Number(x), Part::Number(y)],
    )?;
    let room = put_cut(text, words, plan.letters)?;
    if !more.is_empty() {
        text.push(b" ")?;
        put_cut(text, more, room.saturating_sub(1))?;
    }
    text.push(b"</text>\n")
}

// Writes as much of a text as there is room for, and says how much is left.
fn put_cut(text: &mut Text, words: &[u8], room: u64) -> Result<u64, AllocError> {
    let length = words.len() as u64;
    if length <= room {
        say(text, "%", &[Part::Xml(words)])?;
        return Ok(room.saturating_sub(length));
    }
    let shown = words.get(..room.saturating_sub(2) as usize).unwrap_or(b"");
    say(text, "%..", &[Part::Xml(shown)])?;
    Ok(0)
}

// A frame round a box.
fn draw_mark(text: &mut Text, plan: &Plan, corner: Corner) -> Result<(), AllocError> {
    say_line(
        text,
        "<rect class='mark' x='%' y='%' width='%' height='%'/>",
        &[
            Part::Number(corner.x.saturating_sub(5)),
            Part::Number(corner.y.saturating_sub(5)),
            Part::Number(plan.box_width.saturating_add(10)),
            Part::Number(BOX_HEIGHT.saturating_add(10)),
        ],
    )
}

// The number of the place in the order, under the lanes.
fn draw_place(text: &mut Text, plan: &Plan, corner: Corner, place: u64) -> Result<(), AllocError> {
    if place == 0 {
        return Ok(());
    }
    say_line(
        text,
        "<path class='guide' d='M % % V %'/><text class='place' x='%' y='%'>%</text>",
        &[
            Part::Number(corner.x.saturating_add(7)),
            Part::Number(corner.y.saturating_add(BOX_HEIGHT)),
            Part::Number(plan.lanes_end().saturating_add(3)),
            Part::Number(corner.x.saturating_add(3)),
            Part::Number(plan.numbers_y()),
            Part::Number(place),
        ],
    )
}
