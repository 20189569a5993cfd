//! The lines of a reply.
ghost use Rattle.std.specs.Prelude.{◌≡◌, ◌++◌, map, take, OnOk, codes};
ghost use Rattle.std.specs.Fmt.{decimal};
ghost use Rattle.std.specs.List.{AllByRecursion};
ghost use Rattle.weave_text.specs.Lines.{joined_texts, line_text, lines_text, marked_texts, spaced_words};
ghost use Rattle.weave_report.specs.TextOf.{IsTypedGot, IsTypedReplyState, gots_of};
ghost use Rattle.weave_report.specs.ReportText.{got_line, got_lines, reply_line, reply_lines, stamp_text, stamp_word, verdict_words};

use crate::print::state::print_state;
use crate::print::words::{begun_text, is_program, kind_text, name_at, print_answer, reason_text};
use graph_ops::Got;
use program_defs::Script;
use report_rules::{Reply, ReplyState};
use std::alloc::AllocError;
use vector_stamp::Stamp;
use weave_text::Text;

/// A reply's line, and those of its `get`s.
pub fn print_reply(text: &mut Text, script: &Script, reply: &Reply) -> Result<(), AllocError>
    ensures text { OnOk result (text.new ≡ text.old ++ lines_text (reply_lines script.now reply.now)) }
    ensures typed { OnOk result (IsTypedReplyState reply.now.state) }
{
    print_reply_line(text, script, reply)?;
    print_gots(text, &reply.state)
}

fn print_reply_line(text: &mut Text, script: &Script, reply: &Reply) -> Result<(), AllocError>
    ensures text { OnOk result (text.new ≡ text.old ++ line_text (reply_line script.now reply.now)) }
    ensures typed { OnOk result (AllByRecursion IsTypedGot (gots_of reply.now.state)
        → IsTypedReplyState reply.now.state) }
{
    text.push(kind_text(is_program(script, reply.request)))?;
    text.word(name_at(script, reply.request))?;
    print_stamp_word(text, script.gates, &reply.stamp)?;
    print_verdict(text, script, reply.request, &reply.state)?;
    text.end_line()
}

// A space and the word of a stamp.
fn print_stamp_word(text: &mut Text, gates: u32, stamp: &Option<Stamp>) -> Result<(), AllocError>
    ensures { OnOk result (text.new ≡ text.old ++ codes " " ++ stamp_word gates stamp.now) }
{
    match stamp {
        None => text.word(b"unbegun"),
        Some(stamp) => {
            text.push(b" ")?;
            print_stamp(text, gates, stamp)
        }
    }
}

fn print_stamp(text: &mut Text, gates: u32, stamp: &Stamp) -> Result<(), AllocError>
    ensures { OnOk result (text.new ≡ text.old ++ stamp_text gates stamp.now) }
{
    text.number(stamp.clock.epoch)?;
    text.push(b":")?;
    text.number(u64::from(stamp.home))?;
    text.push(b":")?;
    print_counts(text, first_counts(gates, &stamp.clock.counts))
}

// The counts of the first `gates` gatekeepers; there may be fewer.
#[tactic(auto, using(std::proofs::lemmas::List::take_min))]
fn first_counts(gates: u32, counts: &[u64]) -> &[u64]
    ensures { result.now ≡ take gates counts.now }
{
    let shown = (gates as usize).min(counts.len());
    &counts[..shown]
}

// The counts, with commas between.
fn print_counts(text: &mut Text, counts: &[u64]) -> Result<(), AllocError>
    ensures { OnOk result (text.new ≡ text.old ++ joined_texts (codes ",") (map decimal counts.now)) }
{
    let Some((first, more)) = counts.split_first() else {
        return Ok(());
    };
    text.number(*first)?;
    print_more_counts(text, more)
}

// The counts, with a comma before each.
fn print_more_counts(text: &mut Text, counts: &[u64]) -> Result<(), AllocError>
    ensures { OnOk result (text.new ≡ text.old ++ marked_texts (codes ",") (map decimal counts.now)) }
{
    for count in counts {
        text.push(b",")?;
        text.number(*count)?;
    }
    Ok(())
}

// The words after the stamp, with a space before each.
fn print_verdict(
    text: &mut Text,
    script: &Script,
    request: u32,
    state: &ReplyState,
) -> Result<(), AllocError>
    ensures text { OnOk result (text.new ≡ text.old ++ spaced_words (verdict_words script.now request state.now)) }
    ensures typed { OnOk result (AllByRecursion IsTypedGot (gots_of state.now) → IsTypedReplyState state.now) }
{
    match state {
        ReplyState::Unbegun => Ok(()),
        ReplyState::Begun => text.word(begun_text(is_program(script, request))),
        ReplyState::Committed { number, .. } => {
            text.word(b"committed")?;
            text.number_word(*number)
        }
        ReplyState::Conflict { vertex, newer } => {
            text.word(b"conflict")?;
            text.word(vertex.bytes())?;
            text.word(name_at(script, *newer))
        }
        ReplyState::Refused { op, reason, at } => {
            text.word(b"refused")?;
            text.number_word(u64::from(*op))?;
            text.word(reason_text(*reason))?;
            text.word(b"at")?;
            text.number_word(*at)
        }
        ReplyState::Finished(answer) => {
            text.word(b"done")?;
            print_answer(text, answer)
        }
    }
}

fn print_gots(text: &mut Text, state: &ReplyState) -> Result<(), AllocError>
    ensures text { OnOk result (text.new ≡ text.old ++ lines_text (got_lines state.now)) }
    ensures typed { OnOk result (AllByRecursion IsTypedGot (gots_of state.now)) }
{
    match state {
        ReplyState::Committed { answers, .. } => print_got_lines(text, answers.as_slice()),
        _ => Ok(()),
    }
}

fn print_got_lines(text: &mut Text, gots: &[Got]) -> Result<(), AllocError>
    ensures text { OnOk result (text.new ≡ text.old ++ lines_text (map got_line gots.now)) }
    ensures typed { OnOk result (AllByRecursion IsTypedGot gots.now) }
{
    for got in gots {
        print_got(text, got)?;
    }
    Ok(())
}

fn print_got(text: &mut Text, got: &Got) -> Result<(), AllocError>
    ensures text { OnOk result (text.new ≡ text.old ++ line_text (got_line got.now)) }
    ensures typed { OnOk result (IsTypedGot got.now) }
{
    text.push(b"got")?;
    text.number_word(u64::from(got.op))?;
    print_state(text, &got.state)?;
    text.end_line()
}
