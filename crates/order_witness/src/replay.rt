//! The clause on replay: the order, replayed on the empty plain graph, refuses nothing and gives exactly the printed
//! answers.
ghost use Rattle.std.specs.Prelude.{◌≡◌, ◌≢◌, ◌<◌, ◌^◌, ◌↔◌, ℕ, false, IsTrue, IfOk, OnOk, MatchBool, Ok, None, Some, Contains, length, slice_get, slice_index_or};
ghost use Rattle.graph_ops.specs.Graphs.{plain_of};
ghost use Rattle.graph_ops.specs.PlainGraph.{graph_left, transaction};
ghost use Rattle.weave_data.specs.Facts.{AllHold};
ghost use Rattle.program_defs.specs.declared.script.Work.{Work};
ghost use Rattle.program_defs.specs.PlainAnswer.{IsPlainAnswer};
ghost use Rattle.program_defs.specs.Searching.{has_name};
ghost use Rattle.program_defs.specs.Visits.{IsVisited};
ghost use Rattle.weave_data.specs.declared.name.Name.{Name};
ghost use Rattle.report_rules.specs.declared.report.Pair.{Pair};
ghost use Rattle.report_rules.specs.RightReport as right;
ghost use Rattle.report_rules.specs.Replay.{AnswerMatchesReply, MatchesReply, OutcomeMatchesReply, graph_after, graph_after_work};
ghost use Rattle.report_rules.specs.Lookups as lookups;
ghost use Rattle.order_witness.specs.ByNumber.{list_at};
ghost use Rattle.order_witness.specs.Judgement.{IsFirstFault, has_numbered_operations, is_numbered_work};
ghost use Rattle.order_witness.specs.Visited.{AreMarkedAt, AreMarkedBy, AreOtherMarksKept, AreVisitsMarked};
ghost use Rattle.order_witness.specs.Replay.{MatchesItsReply, GivesAnswers, TellsOf};

use crate::answers::{same_answers, same_outcome};
use crate::by_number::ByNumber;
use crate::lookups::{reply_at, request_at};
use graph_ops::{Got, Graph, Op, TxFault};
use program_defs::laws::plain_answer_is_one;
use program_defs::{Answer, Program, Script, Visits, Work, ask_with_visits, proves, visits_of};
use report_rules::{Pair, ReplyState, Report};
use std::alloc::{AllocError, Global};

// Whether an answer holds, and what its program visits.
#[derive(Drop)]
struct Judged {
    holds: bool,
    visits: Visits,
}

/// The first place in the order whose outcome isn't what its reply says, from 1. If there is none, the marks say of
/// each pair whose later request is a finished program whether that one visits the pair's vertex at its place. Each
/// program in the order is asked once.
pub fn first_fault(
    alloc: Global,
    script: &Script,
    report: &Report,
    marks: &mut Vec<bool>,
) -> Result<Option<u64>, AllocError>
    requires numbered { IsTrue (has_numbered_operations script.now) }
    requires replies { AllHold (right.replies_clause script.now report.now) }
    requires listing { AllHold (right.listing_clause report.now) }
    requires size { length marks.old.items ≡ length report.now.pairs }
    ensures first { IfOk result (IsFirstFault (right.replay_clause script.now report.now)) }
    ensures marked { result ≡ Ok None → AreVisitsMarked script.now report.now marks.new.items }
{
    let meetings = pairs_by_later(alloc, report)?;
    let mut graph = Graph::new(alloc);
    for (place, request) in report.order.as_slice().iter().enumerate() {
        let places = meetings.list_of(*request as u64);
        let holds = replay(alloc, &mut graph, script, report, *request, places, marks)?;
        if !holds {
            return Ok(Some(place as u64 + 1));
        }
    }
    Ok(None)
}

// The places of the pairs with each later request.
fn pairs_by_later(alloc: Global, report: &Report) -> Result<ByNumber, AllocError>
    ensures { IfOk result (λ table. (r place : ℕ) (pair : Pair)
        → r < length report.now.replies → slice_get report.now.pairs place ≡ Some pair
        → (pair.later ≡ r) ↔ Contains (list_at table r) place) }
{
    let mut table = ByNumber::new(alloc, report.replies.as_slice().len())?;
    for (place, pair) in report.pairs.as_slice().iter().enumerate() {
        table.put(pair.later as u64, place)?;
    }
    Ok(table)
}

// Replays a request on the graph, and reports whether its outcome is what its reply says. A program marks its pairs,
// which are at these places.
fn replay(
    alloc: Global,
    graph: &mut Graph,
    script: &Script,
    report: &Report,
    request: u32,
    places: &[usize],
    marks: &mut Vec<bool>,
) -> Result<bool, AllocError>
    requires numbered { IsTrue (has_numbered_operations script.now) }
    ensures size { length marks.new.items ≡ length marks.old.items }
    ensures others { AreOtherMarksKept places.now marks.old.items marks.new.items }
    ensures replayed { IfOk result (TellsOf (MatchesItsReply (plain_of graph.old) script.now report.now request)
        (plain_of graph.new) (graph_after (plain_of graph.old) (lookups.request_at script.now request))) }
    ensures marked { OnOk result (AreMarkedAt report.now.pairs (plain_of graph.old)
        (lookups.request_at script.now request) (lookups.reply_at report.now request) places.now marks.new.items) }
{
    let Some(reply) = reply_at(report, request) else {
        return Ok(false);
    };
    let pairs = report.pairs.as_slice();
    match request_at(script, request) {
        Some(request) => replay_work(
            alloc,
            graph,
            &request.work,
            &reply.state,
            pairs,
            places,
            marks,
        ),
        None => Ok(false),
    }
}

fn replay_work(
    alloc: Global,
    graph: &mut Graph,
    work: &Work,
    state: &ReplyState,
    pairs: &[Pair],
    places: &[usize],
    marks: &mut Vec<bool>,
) -> Result<bool, AllocError>
    requires numbered { IsTrue (is_numbered_work work.now) }
    ensures size { length marks.new.items ≡ length marks.old.items }
    ensures others { AreOtherMarksKept places.now marks.old.items marks.new.items }
    ensures replayed { IfOk result (TellsOf (MatchesReply (plain_of graph.old) work.now state.now)
        (plain_of graph.new) (graph_after_work (plain_of graph.old) work.now)) }
    ensures marked { OnOk result
        (AreMarkedBy pairs.now (plain_of graph.old) work.now state.now places.now marks.new.items) }
{
    match work {
        Work::Change(ops) => replay_transaction(alloc, graph, ops.as_slice(), state),
        Work::Look(program) => replay_program(alloc, graph, program, state, pairs, places, marks),
    }
}

// Asks a program, if it is finished, and reports whether it answers what its reply says. It marks its pairs.
fn replay_program(
    alloc: Global,
    graph: &Graph,
    program: &Program,
    state: &ReplyState,
    pairs: &[Pair],
    places: &[usize],
    marks: &mut Vec<bool>,
) -> Result<bool, AllocError>
    ensures size { length marks.new.items ≡ length marks.old.items }
    ensures others { AreOtherMarksKept places.now marks.old.items marks.new.items }
    ensures answered { IfOk result (λ holds. MatchBool holds
        (AnswerMatchesReply (plain_of graph.now) program.now state.now)
        (¬ AnswerMatchesReply (plain_of graph.now) program.now state.now)) }
    ensures marked { OnOk result (AreMarkedBy pairs.now (plain_of graph.now)
        (Work.Look program.now) state.now places.now marks.new.items) }
{
    match state {
        ReplyState::Finished(answer) => {
            let judged = judge_answer(alloc, graph, program, answer)?;
            mark_all(pairs, places, &judged.visits, marks);
            Ok(judged.holds)
        }
        _ => Ok(false),
    }
}

// Whether this is what the program answers, and what it visits. An answer to `price` is tested by itself; any other one
// is compared with the answer to the program.
fn judge_answer(
    alloc: Global,
    graph: &Graph,
    program: &Program,
    answer: &Answer,
) -> Result<Judged, AllocError>
    ensures holds { IfOk result (λ judged. MatchBool judged.holds
        (IsPlainAnswer (plain_of graph.now) program.now answer.now)
        (¬ IsPlainAnswer (plain_of graph.now) program.now answer.now)) }
    ensures visits { IfOk result (λ judged. (v : Name)
        → IsTrue (has_name judged.visits v) ↔ IsVisited (plain_of graph.now) program.now v) }
{
    if program.is_price() {
        let visits = visits_of(alloc, graph, program)?;
        let holds = proves(alloc, graph, program, answer)?;
        return Ok(Judged { holds, visits });
    }
    plain_answer_is_one();
    let asked = ask_with_visits(alloc, graph, program)?;
    let holds = same_outcome(&asked.answer, answer);
    Ok(Judged {
        holds,
        visits: asked.visits,
    })
}

// Marks each pair at these places with whether its vertex is visited.
fn mark_all(pairs: &[Pair], places: &[usize], visits: &Visits, marks: &mut Vec<bool>)
    ensures size { length marks.new.items ≡ length marks.old.items }
    ensures others { AreOtherMarksKept places.now marks.old.items marks.new.items }
    ensures marked { (k : ℕ) (pair : Pair) → Contains places.now k
        → k < length marks.old.items → slice_get pairs.now k ≡ Some pair
        → slice_index_or marks.new.items k false ≡ has_name visits.now pair.vertex }
{
    for place in places {
        mark_one(pairs, *place, visits, marks);
    }
}

fn mark_one(pairs: &[Pair], place: usize, visits: &Visits, marks: &mut Vec<bool>)
    ensures size { length marks.new.items ≡ length marks.old.items }
    ensures others { (k : ℕ) → k ≢ place
        → slice_index_or marks.new.items k false ≡ slice_index_or marks.old.items k false }
    ensures marked { (pair : Pair) → place < length marks.old.items → slice_get pairs.now place ≡ Some pair
        → slice_index_or marks.new.items place false ≡ has_name visits.now pair.vertex }
{
    if place < marks.len() && place < pairs.len() {
        marks[place] = visits.has(pairs[place].vertex);
    }
}

fn replay_transaction(
    alloc: Global,
    graph: &mut Graph,
    ops: &[Op],
    state: &ReplyState,
) -> Result<bool, AllocError>
    requires { length ops.now < 2 ^ 32 }
    ensures { IfOk result
        (TellsOf (OutcomeMatchesReply (transaction ops.now (plain_of graph.old)) state.now)
        (plain_of graph.new) (graph_left (plain_of graph.old) (transaction ops.now (plain_of graph.old)))) }
{
    match state {
        ReplyState::Committed { answers, .. } => gives(alloc, graph, ops, answers.as_slice()),
        _ => Ok(false),
    }
}

// Runs a transaction, and reports whether it passes and gives these answers.
fn gives(alloc: Global, graph: &mut Graph, ops: &[Op], answers: &[Got]) -> Result<bool, AllocError>
    requires { length ops.now < 2 ^ 32 }
    ensures { IfOk result
        (TellsOf (GivesAnswers (transaction ops.now (plain_of graph.old)) answers.now)
        (plain_of graph.new) (graph_left (plain_of graph.old) (transaction ops.now (plain_of graph.old)))) }
{
    match graph.run_tx(alloc, ops) {
        Ok(gots) => Ok(same_answers(gots.as_slice(), answers)),
        Err(TxFault::Refused { .. }) => Ok(false),
        Err(TxFault::Memory) => Err(AllocError),
    }
}
