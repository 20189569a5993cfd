//! The clause on listing, where it breaks.

use explain_case::{Case, item_at, quote_reply};
use explain_lines::{Part, say_line};
use program_defs::Work;
use report_rules::ReplyState;
use std::alloc::{AllocError, Global};
use weave_text::Text;

/// Says which part of the clause breaks at a place in the order.
pub(crate) fn listing_clause(
    alloc: Global,
    text: &mut Text,
    case: &Case,
    place: u64,
) -> Result<(), AllocError> {
    let Some(request) = item_at(case.order(), place) else {
        return missing_words(alloc, text, case);
    };
    order_place(text, case, place)?;
    if let Some(first) = first_place(case.order(), *request) {
        if first < place {
            return say_line(
                text,
                "It is listed at place % already, and each request is listed once.",
                &[Part::Number(first)],
            );
        }
    }
    say_line(
        text,
        "Only committed transactions and finished programs are listed, and it is %:",
        &[Part::Word(state_words(case, *request))],
    )?;
    quote_reply(text, case, *request)
}

/// Says which request a place of the order has, and which are beside it.
pub(crate) fn order_place(text: &mut Text, case: &Case, place: u64) -> Result<(), AllocError> {
    let Some(request) = item_at(case.order(), place) else {
        return Ok(());
    };
    let line = match case.spots.order {
        Some(spot) => u64::from(spot.line),
        None => 0,
    };
    say_line(
        text,
        "It breaks at place % of the order (line %, word %): `%`, a % of session % (line % of the script).",
        &[
            Part::Number(place),
            Part::Number(line),
            Part::Number(place.saturating_add(1)),
            case.word(*request),
            Part::Word(kind_of(case, *request)),
            Part::Number(case.session(*request)),
            case.line(*request),
        ],
    )
}

// What a request is.
fn kind_of(case: &Case, request: u32) -> &'static [u8] {
    match case.request(request) {
        Some(request) if matches!(request.work, Work::Look(_)) => b"program",
        _ => b"transaction",
    }
}

/// The first place of a request in the order, from 1.
pub(crate) fn first_place(order: &[u32], request: u32) -> Option<u64> {
    let mut place: u64 = 0;
    for listed in order {
        place = place.saturating_add(1);
        if *listed == request {
            return Some(place);
        }
    }
    None
}

/// How a request ended, in a word or two.
pub(crate) fn state_words(case: &Case, request: u32) -> &'static [u8] {
    match case.reply(request) {
        Some(reply) => state_word(&reply.state),
        None => b"without a reply",
    }
}

// How a request in this state ended.
fn state_word(state: &ReplyState) -> &'static [u8] {
    match state {
        ReplyState::Unbegun => b"unbegun",
        ReplyState::Begun => b"begun, without its reply",
        ReplyState::Committed { .. } => b"committed",
        ReplyState::Conflict { .. } => b"in conflict",
        ReplyState::Refused { .. } => b"refused",
        ReplyState::Finished(_) => b"finished",
    }
}

// Whether the order has to list a request in this state.
fn is_listed_state(state: &ReplyState) -> bool {
    matches!(
        state,
        ReplyState::Committed { .. } | ReplyState::Finished(_)
    )
}

// A request is missing in the order.
fn missing_words(alloc: Global, text: &mut Text, case: &Case) -> Result<(), AllocError> {
    let listed = listed_requests(alloc, case)?;
    for (reply, is_listed) in case.replies().iter().zip(&listed) {
        if is_listed_state(&reply.state) && !*is_listed {
            say_line(
                text,
                "`%` (line % of the script) is missing in the order. It is %:",
                &[
                    case.word(reply.request),
                    case.line(reply.request),
                    Part::Word(state_word(&reply.state)),
                ],
            )?;
            return quote_reply(text, case, reply.request);
        }
    }
    Ok(())
}

// Whether the order lists each request.
fn listed_requests(alloc: Global, case: &Case) -> Result<Vec<bool>, AllocError> {
    let mut listed = vec![in alloc; false; case.replies().len()]?;
    for request in case.order() {
        if let Some(is_listed) = listed.as_mut_slice().get_mut(*request as usize) {
            *is_listed = true;
        }
    }
    Ok(listed)
}
