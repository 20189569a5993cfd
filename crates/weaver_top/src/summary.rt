//! The summary of a report.
ghost use Rattle.std.specs.Prelude.{◌≡◌, ◌≤◌, ◌*◌, ◌++◌, IfOk, OnOk};
ghost use Rattle.weave_data.specs.Limits.{most_requests};
ghost use Rattle.step_rules.specs.Finishing.{is_finished};
ghost use Rattle.weaver_top.specs.Summaries.{committed_count, conflict_count, count_line, is_commit, is_conflict, is_refusal, program_count, refused_count, summary_text};

use report_rules::{ReplyState, Report};
use std::alloc::{AllocError, Global};
use weave_text::Text;

/// The eight lines of a summary: the seed, the size, the number of steps, and how the requests of the report ended.
#[tactic(auto, unfolding(crate::specs::Summaries::summary_text))]
pub(crate) fn summary_text(
    alloc: Global,
    seed: u64,
    size: u32,
    report: &Report,
) -> Result<Vec<u8>, AllocError>
    requires { size ≤ most_requests }
    ensures { IfOk result (λ text. text.items ≡ summary_text seed size (4 * size) report.now) }
{
    let mut text = Text::new(alloc);
    text.push(b"load")?;
    text.number_word(seed)?;
    text.number_word(u64::from(size))?;
    text.end_line()?;
    count_line(&mut text, b"steps", u64::from(4 * size))?;
    count_line(&mut text, b"committed", committed(report))?;
    count_line(&mut text, b"conflict", conflicts(report))?;
    count_line(&mut text, b"refused", refused(report))?;
    count_line(&mut text, b"programs", programs(report))?;
    count_line(&mut text, b"settled", report.pairs.as_slice().len() as u64)?;
    text.push(b"check yes\n")?;
    Ok(text.into_bytes())
}

// Writes a line of a word and a number.
fn count_line(text: &mut Text, word: &[u8], count: u64) -> Result<(), AllocError>
    ensures { OnOk result (text.new ≡ text.old ++ count_line word.now count) }
{
    text.push(word)?;
    text.number_word(count)?;
    text.end_line()?;
    Ok(())
}

// How many transactions are committed.
fn committed(report: &Report) -> u64
    ensures { result ≡ committed_count report.now }
{
    let replies = report.replies.as_slice().iter();
    replies.filter(|reply| is_commit(&reply.state)).count() as u64
}

// How many are in conflict.
fn conflicts(report: &Report) -> u64
    ensures { result ≡ conflict_count report.now }
{
    let replies = report.replies.as_slice().iter();
    replies.filter(|reply| is_conflict(&reply.state)).count() as u64
}

// How many are refused.
fn refused(report: &Report) -> u64
    ensures { result ≡ refused_count report.now }
{
    let replies = report.replies.as_slice().iter();
    replies.filter(|reply| is_refusal(&reply.state)).count() as u64
}

// How many programs are finished.
fn programs(report: &Report) -> u64
    ensures { result ≡ program_count report.now }
{
    let replies = report.replies.as_slice().iter();
    replies.filter(|reply| is_finished(&reply.state)).count() as u64
}

fn is_commit(state: &ReplyState) -> bool
    ensures { result ≡ is_commit state.now }
{
    matches!(state, ReplyState::Committed { .. })
}

fn is_conflict(state: &ReplyState) -> bool
    ensures { result ≡ is_conflict state.now }
{
    matches!(state, ReplyState::Conflict { .. })
}

fn is_refusal(state: &ReplyState) -> bool
    ensures { result ≡ is_refusal state.now }
{
    matches!(state, ReplyState::Refused { .. })
}

fn is_finished(state: &ReplyState) -> bool
    ensures { result ≡ is_finished state.now }
{
    matches!(state, ReplyState::Finished(_))
}
