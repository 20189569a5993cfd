//! What `run` promises beyond a right report, and where a report doesn't keep it.

use explain_case::{Case, item_at, quote, quote_reply, quote_request, stamp_words, unticked_words};
use explain_lines::{Part, say, say_line};
use order_witness::{has_order, order_of};
use program_defs::Work;
use run_judge::{Meeting, PhaseFault, PhasePart, RunFaults};
use std::alloc::{AllocError, Global};
use weave_data::Name;
use weave_text::Text;

/// Whether the report keeps what `run` promises of its other lines than the answers of steps.
pub(crate) fn is_kept(faults: &RunFaults) -> bool {
    faults.order.is_none()
        && faults.meetings.is_none()
        && faults.phases.is_none()
        && faults.replies.is_none()
}

/// Says that all of it is kept, or what comes before the words on each promise.
pub(crate) fn heading_words(
    text: &mut Text,
    has_answers: bool,
    is_kept: bool,
) -> Result<(), AllocError> {
    match (is_kept, has_answers) {
        (true, true) => {
            say(text, "All else that `run` promises holds: ", &[])?;
            say_line(text, KEPT, &[Part::Word(b".")])
        }
        (true, false) => {
            say(text, "It keeps all that `run` promises besides: ", &[])?;
            say_line(
                text,
                KEPT,
                &[Part::Word(b"; there are no answers of steps.")],
            )
        }
        (false, true) => say_line(
            text,
            "What `run` promises besides (`trace` the first two as well), and whether it holds:",
            &[],
        ),
        (false, false) => say_line(
            text,
            "What `run` promises besides, and whether it holds:",
            &[],
        ),
    }
}

const KEPT: &str =
    "the order is the printed order; of two requests that meet at a vertex one precedes the other; the phases are \
    kept; every reply is final%";

/// Whether the order is the printed order, and if not, from which place on.
pub(crate) fn order_words(
    alloc: Global,
    text: &mut Text,
    case: &Case,
    place: Option<u64>,
) -> Result<(), AllocError> {
    let Some(place) = place else {
        return say_line(text, "- The order is the printed order: yes.", &[]);
    };
    say_line(
        text,
        "- The order is the printed order: no, from place % on.",
        &[Part::Number(place)],
    )?;
    say_line(text, RULE, &[])?;
    if let Some(request) = item_at(case.order(), place) {
        say_line(text, "    found: `%`", &[case.word(*request)])?;
    }
    if !has_order(alloc, case.script, case.report)? {
        return Ok(());
    }
    let wanted = order_of(alloc, case.script, case.report)?;
    match item_at(wanted.as_slice(), place) {
        Some(request) => say_line(text, "    expected: `%`", &[case.word(*request)]),
        None => Ok(()),
    }
}

const RULE: &str =
    "  The printed order takes, again and again, of the requests that no other one left precedes, that of the \
    gatekeeper with the least number.";

/// Whether of two requests that meet one precedes the other, and if not, which two, where.
pub(crate) fn meeting_words(
    text: &mut Text,
    case: &Case,
    meeting: Option<Meeting>,
) -> Result<(), AllocError> {
    let Some(meeting) = meeting else {
        return say_line(
            text,
            "- Of two requests that meet at a vertex one precedes the other: yes.",
            &[],
        );
    };
    say_line(
        text,
        "- Of two requests that meet at a vertex one precedes the other: no.",
        &[],
    )?;
    let Some(later) = item_at(case.order(), meeting.place) else {
        return Ok(());
    };
    say_line(
        text,
        "  `%` (place % of the order) and `%`, before it, meet at `%`, and neither precedes the other:",
        &[
            case.word(*later),
            Part::Number(meeting.place),
            case.word(meeting.earlier),
            Part::Word(meeting.vertex.bytes()),
        ],
    )?;
    quote_reply(text, case, meeting.earlier)?;
    quote_reply(text, case, *later)?;
    text.push(b"  ")?;
    stamp_words(text, case, meeting.earlier, *later)?;
    unticked_words(text, case, meeting.earlier, *later, b"  ")?;
    missing_pair(text, case, meeting.vertex, meeting.earlier, *later)
}

// Which pair may be missing. No program is the earlier one of a pair.
fn missing_pair(
    text: &mut Text,
    case: &Case,
    vertex: Name,
    earlier: u32,
    later: u32,
) -> Result<(), AllocError> {
    let vertex = Part::Word(vertex.bytes());
    if !is_program(case, earlier) {
        say_line(
            text,
            "  So a line `settled % % %` is missing, or one of these stamps is wrong.",
            &[vertex, case.word(earlier), case.word(later)],
        )?;
    } else {
        say_line(
            text,
            "  So one of these stamps is wrong, or a line `settled % % %` is missing, and `%` has to be listed before `%`.",
            &[
                vertex,
                case.word(later),
                case.word(earlier),
                case.word(later),
                case.word(earlier),
            ],
        )?;
    }
    place_words(text, case)
}

// Where a pair goes.
fn place_words(text: &mut Text, case: &Case) -> Result<(), AllocError> {
    let Some(order) = case.spots.order else {
        return Ok(());
    };
    let line = Part::Number(u64::from(order.line));
    if case.report.pairs.as_slice().is_empty() {
        return say_line(
            text,
            "  The place of such a line is right before the line `order` (line %).",
            &[line],
        );
    }
    say_line(
        text,
        "  The place of such a line is right before the line `order` (line %), or anywhere among the other pairs.",
        &[line],
    )
}

fn is_program(case: &Case, request: u32) -> bool {
    match case.request(request) {
        Some(request) => matches!(request.work, Work::Look(_)),
        None => false,
    }
}

/// Whether the phases are kept, and if not, by which reply.
pub(crate) fn phase_words(
    text: &mut Text,
    case: &Case,
    fault: Option<PhaseFault>,
) -> Result<(), AllocError> {
    let Some(fault) = fault else {
        return say_line(text, "- The phases are kept: yes.", &[]);
    };
    say_line(text, "- The phases are kept: no.", &[])?;
    if let Some(spot) = item_at(case.spots.replies.as_slice(), fault.place) {
        quote(text, case, *spot)?;
    }
    say_line(text, phase_form(fault.part), &[case.word(fault.other)])?;
    quote_reply(text, case, fault.other)?;
    say_line(
        text,
        "  The two requests, in the script, with a line `phase` between them:",
        &[],
    )?;
    if let Some(reply) = item_at(case.replies(), fault.place) {
        quote_request(text, case, reply.request)?;
    }
    quote_request(text, case, fault.other)
}

fn phase_form(part: PhasePart) -> &'static str {
    match part {
        PhasePart::Precedence => "  `%` is of a later phase and precedes it:",
        PhasePart::Conflict => "  `%`, with which it is in conflict, is of another phase:",
        PhasePart::Number => "  `%` is of an earlier phase, and its commit number isn't below:",
        PhasePart::EarlierRefusal =>
            "  `%` is of an earlier phase, and was refused after this commit:",
        PhasePart::Refusal =>
            "  `%`, a commit of an earlier phase, isn't among those after which it was refused:",
    }
}

/// Whether every reply is final, and if not, which isn't.
pub(crate) fn final_words(
    text: &mut Text,
    case: &Case,
    place: Option<u64>,
) -> Result<(), AllocError> {
    let Some(place) = place else {
        return say_line(text, "- Every reply is final: yes.", &[]);
    };
    say_line(
        text,
        "- Every reply is final: no. The first that isn't:",
        &[],
    )?;
    match item_at(case.spots.replies.as_slice(), place) {
        Some(spot) => quote(text, case, *spot),
        None => Ok(()),
    }
}
