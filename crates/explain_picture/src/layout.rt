//! Where everything is, in pixels: plain arithmetic.
ghost use Rattle.std.specs.Prelude.{◌≡◌, length, IfOk};

use crate::drawn::Drawn;
use std::alloc::{AllocError, Global};

/// Left of the first column there are the names of lanes.
const LEFT: u64 = 130;
/// Between two columns.
const GAP: u64 = 24;
/// The title and what `check` says.
const HEAD: u64 = 64;
/// From one session's line to the next.
const SESSION_PITCH: u64 = 16;
/// A lane, and the box in it.
const LANE_HEIGHT: u64 = 72;
/// The height of a box.
pub(crate) const BOX_HEIGHT: u64 = 52;
/// From one track of pairs to the next.
const TRACK_PITCH: u64 = 18;
/// The row of the order's numbers.
const NUMBERS: u64 = 22;
/// The legend.
const LEGEND: u64 = 96;
/// The legend's width, with what is left of it.
const LEAST_WIDTH: u64 = 1_060;
/// The width of a letter of a box.
const LETTER: u64 = 7;
/// The most letters for which a box is made wide enough, a stamp of eight counts of five digits; a longer text is cut.
const MOST_LETTERS: u64 = 51;
/// From one end of a pair's line at a box to the next, if there is room.
const END_PITCH: u64 = 6;
/// Left of the ends there is the number of the order.
const PLACE_ROOM: u64 = 58;
/// The most by which a box is widened for ends.
const MOST_WIDTH: u64 = 480;

/// The left upper corner of a box.
#[derive(Clone, Copy)]
pub struct Corner {
    pub x: u64,
    pub y: u64,
}

/// From where to where a pair's line goes.
#[derive(Clone, Copy)]
pub struct Span {
    pub left: u64,
    pub right: u64,
}

/// The sizes of a picture.
#[derive(Clone, Copy)]
pub struct Plan {
    /// How many letters fit into a box, and how wide it is.
    pub letters: u64,
    pub box_width: u64,
    pub columns: u64,
    pub lanes: u64,
    pub sessions: u64,
    pub tracks: u64,
    /// Where the rightmost line or name of a pair ends.
    pub pairs_end: u64,
}

/// The plan of a picture without pairs, whose longest text in a box has this many letters, and where at most so many
/// lines of pairs end at one box.
pub fn plan_of(letters: u64, ends: u64, columns: u64, lanes: u64, sessions: u64) -> Plan {
    let written = letters.max(12).min(MOST_LETTERS);
    let by_letters = written.saturating_mul(LETTER).saturating_add(14);
    let by_ends = ends.saturating_mul(END_PITCH).saturating_add(PLACE_ROOM);
    let box_width = by_letters.max(by_ends.min(MOST_WIDTH));
    Plan {
        letters: box_width.saturating_sub(14) / LETTER,
        box_width,
        columns,
        lanes,
        sessions,
        tracks: 0,
        pairs_end: 0,
    }
}

impl Plan {
    /// The left end of a column, from 0.
    pub fn column_left(&self, column: u64) -> u64 {
        let pitch = self.box_width.saturating_add(GAP);
        LEFT.saturating_add(GAP / 2)
            .saturating_add(column.saturating_mul(pitch))
    }

    /// The height at which a session's line is, from 0.
    pub fn session_y(&self, session: u64) -> u64 {
        HEAD.saturating_add(12)
            .saturating_add(session.saturating_mul(SESSION_PITCH))
    }

    /// The upper end of a lane, from 0.
    pub fn lane_top(&self, lane: u64) -> u64 {
        self.session_y(self.sessions)
            .saturating_add(lane.saturating_mul(LANE_HEIGHT))
    }

    /// The upper end of a box in a lane.
    pub fn box_top(&self, lane: u64) -> u64 {
        self.lane_top(lane)
            .saturating_add(LANE_HEIGHT.saturating_sub(BOX_HEIGHT) / 2)
    }

    /// The corner of a box in a column and a lane.
    pub fn corner(&self, column: u64, lane: u32) -> Corner {
        Corner {
            x: self.column_left(column),
            y: self.box_top(u64::from(lane)),
        }
    }

    /// The lower end of the lanes.
    pub fn lanes_end(&self) -> u64 {
        self.lane_top(self.lanes)
    }

    /// The height of the numbers of the order.
    pub fn numbers_y(&self) -> u64 {
        self.lanes_end().saturating_add(15)
    }

    /// The height of a track of pairs, from 0.
    pub fn track_y(&self, track: u64) -> u64 {
        self.lanes_end()
            .saturating_add(NUMBERS)
            .saturating_add(TRACK_PITCH)
            .saturating_add(track.saturating_mul(TRACK_PITCH))
    }

    /// The upper end of the legend.
    pub fn legend_top(&self) -> u64 {
        self.track_y(self.tracks).saturating_add(8)
    }

    /// The width of the picture.
    pub fn width(&self) -> u64 {
        self.column_left(self.columns)
            .max(self.pairs_end)
            .saturating_add(GAP)
            .max(LEAST_WIDTH)
    }

    /// The height of the picture.
    pub fn height(&self) -> u64 {
        self.legend_top().saturating_add(LEGEND)
    }

    /// Where the line of a box's pair begins or ends: that of this number, from 0, of so many. Left of them there is
    /// the number of the order.
    pub fn port_x(&self, column: u64, number: u64, count: u64) -> u64 {
        let room = self.box_width.saturating_sub(PLACE_ROOM);
        let step = room / count.saturating_add(1);
        self.column_left(column)
            .saturating_add(50)
            .saturating_add(number.saturating_add(1).saturating_mul(step))
    }
}

/// The corners of the boxes, one for each request drawn: in columns of their own, in the lanes of their gatekeepers.
pub fn corners(alloc: Global, plan: &Plan, drawn: &[Drawn]) -> Result<Vec<Corner>, AllocError>
    ensures { IfOk result (λ corners. length corners.items ≡ length drawn.now) }
{
    drawn
        .iter()
        .enumerate()
        .map(|(column, request)| plan.corner(column as u64, request.lane))
        .collect(alloc)
}

/// Which track each of these spans has, from 0: the first on which it comes before all that are on it. The spans come
/// in the falling order of their left ends. So of two lines that begin at one box the left one is lower, and the right
/// one doesn't cross its name.
pub fn tracks_of(alloc: Global, spans: &[Span]) -> Result<Vec<u64>, AllocError> {
    let mut starts = Vec::new(alloc);
    let mut tracks = Vec::new(alloc);
    for span in spans {
        let track = free_track(starts.as_slice(), *span);
        match starts.get_mut(track) {
            Some(start) => *start = span.left,
            None => starts.push(span.left)?,
        }
        tracks.push(track as u64)?;
    }
    Ok(tracks)
}

// The first track that begins after a span ends, or one more than there are.
fn free_track(starts: &[u64], span: Span) -> usize {
    let mut track: usize = 0;
    for start in starts {
        if span.right.saturating_add(10) < *start {
            return track;
        }
        track = track.saturating_add(1);
    }
    track
}

/// The width of a label of so many letters.
pub(crate) fn label_width(letters: u64) -> u64 {
    letters.saturating_mul(LETTER).saturating_add(12)
}
