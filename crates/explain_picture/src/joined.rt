//! The lines of sessions, above the lanes.

use crate::drawn::Drawn;
use crate::layout::{Corner, Plan};
use explain_lines::{Part, say, say_line};
use std::alloc::{AllocError, Global};
use weave_text::Text;

/// The sessions of the requests that are drawn, each once, in order.
pub(crate) fn sessions_of(alloc: Global, drawn: &[Drawn]) -> Result<Vec<u32>, AllocError> {
    let mut sessions = Vec::new(alloc);
    for request in drawn {
        if !sessions.as_slice().contains(&request.session) {
            sessions.push(request.session)?;
        }
    }
    sessions.as_mut_slice().sort_unstable();
    Ok(sessions)
}

/// Draws a line for each session, with a branch down to each of its requests.
pub(crate) fn draw_sessions(
    text: &mut Text,
    plan: &Plan,
    sessions: &[u32],
    drawn: &[Drawn],
    corners: &[Corner],
) -> Result<(), AllocError> {
    let mut row: u64 = 0;
    for session in sessions {
        draw_session(text, plan, *session, plan.session_y(row), drawn, corners)?;
        row = row.saturating_add(1);
    }
    Ok(())
}

fn draw_session(
    text: &mut Text,
    plan: &Plan,
    session: u32,
    y: u64,
    drawn: &[Drawn],
    corners: &[Corner],
) -> Result<(), AllocError> {
    let mut left = u64::MAX;
    let mut right: u64 = 0;
    for (request, corner) in drawn.iter().zip(corners) {
        if request.session == session {
            let x = corner.x.saturating_add(plan.box_width / 2);
            left = left.min(x);
            right = right.max(x);
            draw_branch(text, session, x, y, corner.y)?;
        }
    }
    say_line(
        text,
        "<path class='session' d='M % % H %'/><text class='small' x='10' y='%'>session %</text>",
        &[
            Part::Number(left),
            Part::Number(y),
            Part::Number(right),
            Part::Number(y.saturating_add(4)),
            Part::Number(u64::from(session)),
        ],
    )
}

fn draw_branch(text: &mut Text, session: u32, x: u64, y: u64, end: u64) -> Result<(), AllocError> {
    say(
        text,
        "<path class='session' d='M % % V %'/><circle class='knot' cx='%' cy='%' r='2'/>",
        &[
            Part::Number(x),
            Part::Number(y),
            Part::Number(end),
            Part::Number(x),
            Part::Number(y),
        ],
    )?;
    say_line(
        text,
        "<text class='count' x='%' y='%'>%</text>",
        &[
            Part::Number(x.saturating_add(4)),
            Part::Number(y.saturating_sub(3)),
            Part::Number(u64::from(session)),
        ],
    )
}
