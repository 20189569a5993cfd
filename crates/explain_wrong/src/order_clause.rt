//! The clause on order, where it breaks.
ghost use Rattle.weave_data.specs.Facts.{AllHold};
ghost use Rattle.report_rules.specs.RightReport.{replies_clause};

use crate::chain_words::{chain_of, chain_words};
use crate::listing_clause::{first_place, order_place};
use crate::reaching::first_reached;
use crate::turned_pair::{turned_pair, turned_words};
use explain_case::{Case, item_at, quote_reply, unticked_words};
use explain_lines::{Part, say_line};
use std::alloc::{AllocError, Global};
use weave_text::Text;

/// Says by which steps the request at a place in the order precedes itself or one before that place. The order of a
/// session needs no words of its own: by the clause on replies its stamps rise.
pub(crate) fn order_clause(
    alloc: Global,
    text: &mut Text,
    case: &Case,
    place: u64,
) -> Result<(), AllocError>
    requires { AllHold (replies_clause case.now.script.now case.now.report.now) }
{
    let Some(request) = item_at(case.order(), place) else {
        return Ok(());
    };
    order_place(text, case, place)?;
    quote_reply(text, case, *request)?;
    let listed = case.order().get(..place as usize).unwrap_or(&[]);
    match first_reached(alloc, case, *request, listed)? {
        Some(earlier) => cycle_words(alloc, text, case, *request, earlier),
        None => Ok(()),
    }
}

// The request precedes itself, or one that is listed before it.
fn cycle_words(
    alloc: Global,
    text: &mut Text,
    case: &Case,
    request: u32,
    earlier: u32,
) -> Result<(), AllocError>
    requires { AllHold (replies_clause case.now.script.now case.now.report.now) }
{
    put_earlier(text, case, request, earlier)?;
    say_line(
        text,
        "A shortest chain that leads from `%` to `%`:",
        &[case.word(request), case.word(earlier)],
    )?;
    if let Some(chain) = chain_of(alloc, case.script, case.report, request, earlier)? {
        chain_words(text, case, request, chain.as_slice())?;
        if let Some(pair) = turned_pair(case, request, chain.as_slice()) {
            return turned_words(text, case, &pair);
        }
    }
    if request == earlier {
        return say_line(text, "So one of these stamps or pairs is wrong.", &[]);
    }
    unticked_words(text, case, request, earlier, b"")?;
    say_line(
        text,
        "So `%` has to be listed after `%`, or one of these stamps or pairs is wrong.",
        &[case.word(earlier), case.word(request)],
    )
}

// Says which request it precedes.
fn put_earlier(text: &mut Text, case: &Case, request: u32, earlier: u32) -> Result<(), AllocError> {
    if request == earlier {
        return say_line(
            text,
            "It precedes itself, which no right report has: its stamps and pairs make a circle.",
            &[],
        );
    }
    say_line(
        text,
        "It precedes `%`, which is listed before it, at place %:",
        &[
            case.word(earlier),
            Part::Number(first_place(case.order(), earlier).unwrap_or(0)),
        ],
    )?;
    quote_reply(text, case, earlier)
}
