//! The lines after the replies.
ghost use Rattle.std.specs.Prelude.{◌≡◌, ◌++◌, ◌<◌, ◌^◌, length, map, OnOk};
ghost use Rattle.std.specs.List.{AllByRecursion, enumerate_from};
ghost use Rattle.weave_text.specs.Lines.{line_text, lines_text, spaced_words};
ghost use Rattle.report_rules.specs.declared.report.Pair.{Pair};
ghost use Rattle.weave_report.specs.TextOf.{IsName, IsTypedStepAnswer};
ghost use Rattle.weave_report.specs.ReportText.{did_line, name_at, order_line, pair_line, step_answer_words};

use crate::print::words::name_at;
use program_defs::Script;
use report_rules::{Pair, StepAnswer};
use std::alloc::AllocError;
use weave_text::Text;

/// A line for each pair.
pub fn print_pairs(text: &mut Text, script: &Script, pairs: &[Pair]) -> Result<(), AllocError>
    ensures text { OnOk result (text.new ≡ text.old ++ lines_text (map (pair_line script.now) pairs.now)) }
    ensures typed { OnOk result (AllByRecursion (λ (pair : Pair). IsName pair.vertex) pairs.now) }
{
    for pair in pairs {
        print_pair(text, script, pair)?;
    }
    Ok(())
}

fn print_pair(text: &mut Text, script: &Script, pair: &Pair) -> Result<(), AllocError>
    ensures text { OnOk result (text.new ≡ text.old ++ line_text (pair_line script.now pair.now)) }
    ensures typed { OnOk result (IsName pair.now.vertex) }
{
    text.push(b"settled")?;
    text.word(pair.vertex.bytes())?;
    text.word(name_at(script, pair.earlier))?;
    text.word(name_at(script, pair.later))?;
    text.end_line()
}

/// The line of the order.
pub fn print_order(text: &mut Text, script: &Script, order: &[u32]) -> Result<(), AllocError>
    ensures { OnOk result (text.new ≡ text.old ++ line_text (order_line script.now order.now)) }
{
    text.push(b"order")?;
    print_requests(text, script, order)?;
    text.end_line()
}

// The names of requests, with a space before each.
fn print_requests(text: &mut Text, script: &Script, requests: &[u32]) -> Result<(), AllocError>
    ensures { OnOk result (text.new ≡ text.old ++ spaced_words (map (name_at script.now) requests.now)) }
{
    for request in requests {
        text.word(name_at(script, *request))?;
    }
    Ok(())
}

/// A line for each step's answer, numbered from 1.
pub fn print_answers(text: &mut Text, answers: &[StepAnswer]) -> Result<(), AllocError>
    ensures text { OnOk result (text.new ≡ text.old ++ lines_text (map did_line (enumerate_from 1 answers.now))) }
    ensures typed { OnOk result (AllByRecursion IsTypedStepAnswer answers.now) }
    ensures few { length answers.now < 2 ^ 64 }
{
    for (index, answer) in answers.iter().enumerate() {
        print_did(text, index as u64 + 1, answer)?;
    }
    Ok(())
}

fn print_did(text: &mut Text, number: u64, answer: &StepAnswer) -> Result<(), AllocError>
    ensures text { OnOk result (text.new ≡ text.old ++ line_text (did_line (number, answer.now))) }
    ensures typed { OnOk result (IsTypedStepAnswer answer.now) }
{
    text.push(b"did")?;
    text.number_word(number)?;
    print_step_answer(text, answer)?;
    text.end_line()
}

// The words of a step's answer, with a space before each.
fn print_step_answer(text: &mut Text, answer: &StepAnswer) -> Result<(), AllocError>
    ensures text { OnOk result (text.new ≡ text.old ++ spaced_words (step_answer_words answer.now)) }
    ensures typed { OnOk result (IsTypedStepAnswer answer.now) }
{
    match answer {
        StepAnswer::Ok => text.word(b"ok"),
        StepAnswer::Twice => text.word(b"twice"),
        StepAnswer::Early => text.word(b"early"),
        StepAnswer::Busy => text.word(b"busy"),
        StepAnswer::Idle => text.word(b"idle"),
        StepAnswer::Old => text.word(b"old"),
        StepAnswer::Unknown => text.word(b"unknown"),
        StepAnswer::Repeat => text.word(b"repeat"),
        StepAnswer::Empty => text.word(b"empty"),
        StepAnswer::Waits { vertex } => {
            text.word(b"waits")?;
            text.word(vertex.bytes())
        }
        StepAnswer::Again { shard, gate } => {
            text.word(b"again")?;
            text.number_word(u64::from(*shard))?;
            text.number_word(u64::from(*gate))
        }
    }
}
