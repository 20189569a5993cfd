//! The clause on replies, where it breaks.

use explain_case::{Case, item_at, quote, quote_reply, quote_request, stamp_words, unticked_words};
use explain_lines::{Part, say_line};
use report_rules::Reply;
use std::alloc::AllocError;
use vector_stamp::Stamp;
use weave_text::Text;

/// Says which part of the clause breaks at a reply line.
pub(crate) fn reply_clause(text: &mut Text, case: &Case, place: u64) -> Result<(), AllocError> {
    let Some(reply) = item_at(case.replies(), place) else {
        return missing_words(text, case, place);
    };
    say_line(text, "It breaks at reply line %:", &[Part::Number(place)])?;
    if let Some(spot) = item_at(case.spots.replies.as_slice(), place) {
        quote(text, case, *spot)?;
    }
    if u64::from(reply.request).saturating_add(1) != place {
        return other_request(text, case, place, reply.request);
    }
    if let Some(stamp) = reply.stamp {
        if has_other_home(case, reply.request, &stamp) {
            return home_words(text, case, reply.request, &stamp);
        }
    }
    clash_words(text, case, reply)
}

// The reply lines end before this one.
fn missing_words(text: &mut Text, case: &Case, place: u64) -> Result<(), AllocError> {
    let count = case.replies().len() as u64;
    say_line(
        text,
        "The report has % reply lines and the script % requests. The first reply that is missing, number %, is that of:",
        &[
            Part::Number(count),
            Part::Number(case.script.requests.as_slice().len() as u64),
            Part::Number(place),
        ],
    )?;
    match item_at(case.spots.requests.as_slice(), place) {
        Some(spot) => quote(text, case, *spot),
        None => Ok(()),
    }
}

// The reply line is that of another request.
fn other_request(text: &mut Text, case: &Case, place: u64, request: u32) -> Result<(), AllocError> {
    say_line(
        text,
        "It is of `%`, which is request % of the script (line %). Reply line % has to be that of request %:",
        &[
            case.word(request),
            Part::Number(u64::from(request).saturating_add(1)),
            case.line(request),
            Part::Number(place),
            Part::Number(place),
        ],
    )?;
    if let Some(spot) = item_at(case.spots.requests.as_slice(), place) {
        quote(text, case, *spot)?;
    }
    if u64::from(request) < place {
        return second_reply(text, case, place, request);
    }
    say_line(
        text,
        "So a reply line is missing before it, or two are exchanged.",
        &[],
    )
}

// The request of this reply line has an earlier one already.
fn second_reply(text: &mut Text, case: &Case, place: u64, request: u32) -> Result<(), AllocError> {
    say_line(
        text,
        "The reply of `%` is on reply line % already:",
        &[
            case.word(request),
            Part::Number(u64::from(request).saturating_add(1)),
        ],
    )?;
    quote_reply(text, case, request)?;
    match item_at(case.replies(), place.saturating_add(1)) {
        Some(next) if u64::from(next.request).saturating_add(1) == place => say_line(
            text,
            "The next reply line is that of `%`. So one of these two lines of `%` has to go.",
            &[case.word(next.request), case.word(request)],
        ),
        _ => say_line(
            text,
            "So this line is one too many, or in the place of another.",
            &[],
        ),
    }
}

fn has_other_home(case: &Case, request: u32, stamp: &Stamp) -> bool {
    match case.request(request) {
        Some(request) => request.gate != stamp.home,
        None => false,
    }
}

fn home_words(text: &mut Text, case: &Case, request: u32, stamp: &Stamp) -> Result<(), AllocError> {
    let gate = match case.request(request) {
        Some(request) => u64::from(request.gate),
        None => 0,
    };
    say_line(
        text,
        "The home of its stamp (the number after the first colon) is %. The request is at gatekeeper %:",
        &[Part::Number(u64::from(stamp.home)), Part::Number(gate)],
    )?;
    quote_request(text, case, request)
}

// The line breaks the clause together with an earlier one.
fn clash_words(text: &mut Text, case: &Case, reply: &Reply) -> Result<(), AllocError> {
    for earlier in case.replies().iter().take(reply.request as usize) {
        match (&earlier.stamp, &reply.stamp) {
            (Some(first), Some(second)) if !first.is_apart(second) => {
                return id_words(text, case, earlier.request, reply.request);
            }
            _ => {}
        }
        if case.same_session(earlier.request, reply.request) && !are_in_turn(earlier, reply) {
            return session_words(text, case, earlier, reply);
        }
    }
    Ok(())
}

// Whether an earlier request of a session is begun with a stamp before that of a later one, if this one is begun.
fn are_in_turn(earlier: &Reply, later: &Reply) -> bool {
    match (&earlier.stamp, &later.stamp) {
        (_, None) => true,
        (None, Some(_)) => false,
        (Some(first), Some(second)) => first.is_before(second),
    }
}

// Two stamps of one gatekeeper that can't be of two requests.
fn id_words(text: &mut Text, case: &Case, earlier: u32, later: u32) -> Result<(), AllocError> {
    say_line(
        text,
        "Its stamp doesn't go with that of reply line %:",
        &[Part::Number(u64::from(earlier).saturating_add(1))],
    )?;
    quote_reply(text, case, earlier)?;
    match (case.stamp(earlier), case.stamp(later)) {
        (Some(first), Some(second)) => two_stamps(text, &first, &second),
        _ => Ok(()),
    }
}

// Says how two stamps of one home clash.
fn two_stamps(text: &mut Text, first: &Stamp, second: &Stamp) -> Result<(), AllocError> {
    if first.clock.epoch == second.clock.epoch && first.own_count() == second.own_count() {
        return say_line(
            text,
            "Both have one id: home %, epoch % and % as the home's own count. A gatekeeper counts on for each stamp.",
            &[
                Part::Number(u64::from(first.home)),
                Part::Number(first.clock.epoch),
                Part::Number(first.own_count()),
            ],
        );
    }
    say_line(
        text,
        "Both are of gatekeeper %. By their epochs, then their own counts (% and %), one is the earlier; then its stamp \
            has to be before the other's, with no count greater. It isn't.",
        &[
            Part::Number(u64::from(first.home)),
            Part::Number(first.own_count()),
            Part::Number(second.own_count()),
        ],
    )
}

// Two requests of one session that didn't begin in turn.
fn session_words(
    text: &mut Text,
    case: &Case,
    earlier: &Reply,
    later: &Reply,
) -> Result<(), AllocError> {
    say_line(
        text,
        "It is out of turn in session %. In the script `%` (line %) comes before `%` (line %); its reply:",
        &[
            Part::Number(case.session(later.request)),
            case.word(earlier.request),
            case.line(earlier.request),
            case.word(later.request),
            case.line(later.request),
        ],
    )?;
    quote_reply(text, case, earlier.request)?;
    if earlier.stamp.is_none() {
        return say_line(
            text,
            "A request begins only when the one before it in its session has its reply; so `%` can't have a stamp while \
                `%` is unbegun.",
            &[case.word(later.request), case.word(earlier.request)],
        );
    }
    say_line(
        text,
        "So the stamp of `%` has to be before that of `%`, and it isn't.",
        &[case.word(earlier.request), case.word(later.request)],
    )?;
    stamp_words(text, case, earlier.request, later.request)?;
    unticked_words(text, case, earlier.request, later.request, b"")
}
