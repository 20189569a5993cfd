//! The text of a report.
ghost use Rattle.std.specs.Prelude.{◌≡◌, ◌++◌, OnOk, IfOk};
ghost use Rattle.std.specs.List.{AllByRecursion, flat_map};
ghost use Rattle.weave_text.specs.Lines.{lines_text};
ghost use Rattle.report_rules.specs.declared.report.Reply.{Reply};
ghost use Rattle.weave_report.specs.ReportText.{reply_lines, report_text};
ghost use Rattle.weave_report.specs.TextOf.{IsTypedReplyState, IsTypedReport};

mod lines;
mod priced;
mod reply;
mod state;
mod words;

use crate::print::lines::{print_answers, print_order, print_pairs};
use crate::print::reply::print_reply;
use program_defs::Script;
use report_rules::{Reply, Report};
use std::alloc::{AllocError, Global};
use weave_text::Text;

/// The text of a report of this script. It fails only if memory runs out.
pub fn print_report(alloc: Global, script: &Script, report: &Report) -> Result<Vec<u8>, AllocError>
    ensures text { IfOk result (λ text. text.items ≡ report_text script.now report.now) }

    // Its names are names, its keys rise, and its numbers are within their ranges.
    ensures typed { OnOk result (IsTypedReport report.now) }
{
    let mut text = Text::new(alloc);
    text.push(b"report 1\n")?;
    print_replies(&mut text, script, report.replies.as_slice())?;
    print_pairs(&mut text, script, report.pairs.as_slice())?;
    print_order(&mut text, script, report.order.as_slice())?;
    print_answers(&mut text, report.answers.as_slice())?;
    text.push(b"end\n")?;
    Ok(text.into_bytes())
}

fn print_replies(text: &mut Text, script: &Script, replies: &[Reply]) -> Result<(), AllocError>
    ensures text { OnOk result (text.new ≡ text.old ++ lines_text (flat_map (reply_lines script.now) replies.now)) }
    ensures typed { OnOk result (AllByRecursion (λ (reply : Reply). IsTypedReplyState reply.state) replies.now) }
{
    for reply in replies {
        print_reply(text, script, reply)?;
    }
    Ok(())
}
