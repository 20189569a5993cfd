//! Replies that aren't final, and answers of steps.
ghost use Rattle.std.specs.Prelude.{◌≡◌};
ghost use Rattle.report_rules.specs.Lookups.{is_final};
ghost use Rattle.order_witness.specs.Judgement.{IsFirstFault};
ghost use Rattle.run_judge.specs.Promises.{final_replies_clause, no_steps_clause};

use report_rules::{ReplyState, Report};

/// The first reply line that isn't final, from 1.
pub fn first_open_reply(report: &Report) -> Option<u64>
    ensures { IsFirstFault (final_replies_clause report.now) result }
{
    for (place, reply) in report.replies.as_slice().iter().enumerate() {
        let holds = is_final(&reply.state);
        if !holds {
            return Some(place as u64 + 1);
        }
    }
    None
}

fn is_final(state: &ReplyState) -> bool
    ensures { result ≡ is_final state.now }
{
    match state {
        ReplyState::Unbegun => false,
        ReplyState::Begun => false,
        ReplyState::Committed { .. } => true,
        ReplyState::Conflict { .. } => true,
        ReplyState::Refused { .. } => true,
        ReplyState::Finished(_) => true,
    }
}

/// The first answer of a step, from 1, if there is one.
pub fn first_answer(report: &Report) -> Option<u64>
    ensures { IsFirstFault (no_steps_clause report.now) result }
{
    let answers = report.answers.as_slice();
    if answers.len() == 0 {
        return None;
    }
    Some(1)
}
