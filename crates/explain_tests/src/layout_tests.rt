use explain_picture::{Corner, Drawn, Plan, Span, corners, drawn_of, plan_of, tracks_of};
use program_defs::Script;
use report_rules::Report;
use std::alloc::Global;
use std::process::Abort;
use weave_script::read_check;

// Five requests of three sessions at two gatekeepers: three in the order, one refused, one that never began.
const FIVE: &str = "weaver 1 2 1
tx a 0 0
create v
end
tx b 1 1
set v k x
end
prog p 2 0 show v
tx c 0 0
create v
end
tx d 1 1
get v
end
report 1
tx a 0:0:1,0 committed 1
tx b 0:1:0,1 committed 2
prog p 0:0:2,0 done record k=x
tx c 0:0:3,0 refused 1 exists at 2
tx d unbegun
settled v a b
settled v b p
order a b p
end
";

// A request that is drawn: its place in the script, its lane, its session, its place in the order, and its corner.
#[derive(Clone, Copy)]
struct Row {
    request: u32,
    lane: u32,
    session: u32,
    place: u64,
    x: u64,
    y: u64,
}

const ROWS: [Row; 5] = [
    Row {
        request: 0,
        lane: 0,
        session: 0,
        place: 1,
        x: 142,
        y: 134,
    },
    Row {
        request: 1,
        lane: 1,
        session: 1,
        place: 2,
        x: 278,
        y: 206,
    },
    Row {
        request: 2,
        lane: 0,
        session: 2,
        place: 3,
        x: 414,
        y: 134,
    },
    Row {
        request: 3,
        lane: 0,
        session: 0,
        place: 0,
        x: 550,
        y: 134,
    },
    Row {
        request: 4,
        lane: 1,
        session: 1,
        place: 0,
        x: 686,
        y: 206,
    },
];

// The second request of the order alone.
const ROWS_OF_ONE: [Row; 1] = [Row {
    request: 1,
    lane: 1,
    session: 1,
    place: 2,
    x: 142,
    y: 206,
}];

fn is_row(drawn: &Drawn, corner: &Corner, row: &Row) -> bool {
    drawn.request == row.request
        && drawn.lane == row.lane
        && drawn.session == row.session
        && drawn.place == row.place
        && corner.x == row.x
        && corner.y == row.y
}

// Whether these requests are drawn at these corners, if the longest text in a box has fourteen letters.
fn are_rows(rt: &impl Abort, alloc: Global, drawn: &[Drawn], rows: &[Row]) -> bool {
    let plan = plan_of(14, 2, drawn.len() as u64, 2, 3);
    let corners = corners(alloc, &plan, drawn).expect(rt, "memory");
    if drawn.len() != rows.len() {
        return false;
    }
    for ((request, corner), row) in drawn.iter().zip(corners.as_slice()).zip(rows) {
        if !is_row(request, corner, row) {
            return false;
        }
    }
    true
}

// Whether these rows are drawn of places of the order.
fn are_drawn(
    rt: &impl Abort,
    alloc: Global,
    script: &Script,
    report: &Report,
    from: u64,
    count: u64,
    rows: &[Row],
) -> bool {
    let drawn = drawn_of(alloc, script, report, from, count).expect(rt, "memory");
    are_rows(rt, alloc, drawn.as_slice(), rows)
}

#[test]
fn five_requests_at_two_gatekeepers(rt: HostRuntime) {
    let (script, report) = read_check(rt.alloc(), FIVE.as_bytes()).expect(&rt, "a report");
    assert!(rt; are_drawn(&rt, rt.alloc(), &script, &report, 1, 60, &ROWS));
    assert!(rt; are_drawn(&rt, rt.alloc(), &script, &report, 2, 1, &ROWS_OF_ONE));
}

// The heights and widths of a plan.
fn sizes_of(plan: &Plan) -> [u64; 8] {
    [
        plan.box_width,
        plan.session_y(2),
        plan.lanes_end(),
        plan.numbers_y(),
        plan.track_y(0),
        plan.legend_top(),
        plan.width(),
        plan.height(),
    ]
}

// The lines of the two pairs of the five requests: from the first to the second, from there to the third.
fn ports_of(plan: &Plan) -> [u64; 4] {
    [
        plan.port_x(0, 0, 1),
        plan.port_x(1, 0, 2),
        plan.port_x(1, 1, 2),
        plan.port_x(2, 0, 1),
    ]
}

#[test]
fn sizes(rt: HostRuntime) {
    let plan = Plan {
        tracks: 1,
        pairs_end: 491,
        ..plan_of(14, 2, 5, 2, 3)
    };
    assert!(rt; sizes_of(&plan) == [112, 108, 268, 283, 308, 334, 1060, 430]);
    assert!(rt; ports_of(&plan) == [219, 346, 364, 491]);
}

// How wide boxes are, and how many letters fit into them, by the longest text and the most ends of pairs at a box.
fn width_and_letters(letters: u64, ends: u64) -> (u64, u64) {
    let plan = plan_of(letters, ends, 1, 1, 1);
    (plan.box_width, plan.letters)
}

#[test]
fn widths_of_boxes(rt: HostRuntime) {
    assert!(rt; width_and_letters(0, 0) == (98, 12));
    assert!(rt; width_and_letters(60, 0) == (371, 51));
    assert!(rt; width_and_letters(12, 20) == (178, 23));
    assert!(rt; width_and_letters(12, 100) == (480, 66));
}

// In the falling order of their left ends.
const SPANS: [Span; 6] = [
    Span {
        left: 512,
        right: 600,
    },
    Span {
        left: 357,
        right: 491,
    },
    Span {
        left: 356,
        right: 400,
    },
    Span {
        left: 300,
        right: 500,
    },
    Span {
        left: 219,
        right: 347,
    },
    Span {
        left: 218,
        right: 346,
    },
];

#[test]
fn pairs_that_meet_have_other_tracks(rt: HostRuntime) {
    let tracks = tracks_of(rt.alloc(), &SPANS).expect(&rt, "memory");
    assert!(rt; tracks.as_slice() == [0, 0, 1, 2, 3, 0].as_slice());
}
