//! The clause on order: no listed request precedes itself or one listed before it, and those of a session are in its
//! order.
ghost use Rattle.std.specs.Prelude.{◌≡◌, ◌&&◌, ◌++◌, ◌∷◌, [], not, length, IfOk};
ghost use Rattle.weave_data.specs.Facts.{AllHold};
ghost use Rattle.report_rules.specs.RightReport as right;
ghost use Rattle.order_witness.specs.Begun.{is_request_before};
ghost use Rattle.order_witness.specs.ByNumber.{list_at};
ghost use Rattle.order_witness.specs.Judgement.{IsFirstFault};
ghost use Rattle.order_witness.specs.Marks.{AreRuns, is_marked};
ghost use Rattle.order_witness.specs.Preceding.{AreStepsOf};
ghost use Rattle.order_witness.specs.Tops.{AreBelowTops, is_last_of_session};

use crate::by_number::ByNumber;
use crate::by_session::BySession;
use crate::heads::{Run, earlier_ends, runs_of};
use crate::rising::places_by_stamps;
use crate::tops::comes_last;
use crate::walk::{is_marked, mark_before, no_marks, starts};
use program_defs::Script;
use report_rules::Report;
use std::alloc::{AllocError, Global};
use vector_stamp::laws::{one_pair_joins_its_ends, precedence_is_decided, stamps_are_ordered};

/// The first place in the order that breaks the clause with itself or an earlier place, from 1. The clause on replies
/// must hold.
///
/// A sort, and then one walk over the order, which marks what precedes the requests so far: each request and each pair
/// is looked at once. A request breaks the clause if it is marked once it was looked at.
pub fn first_fault(
    alloc: Global,
    script: &Script,
    report: &Report,
) -> Result<Option<u64>, AllocError>
    requires { AllHold (right.replies_clause script.now report.now) }
    ensures { IfOk result (IsFirstFault (right.order_clause script.now report.now)) }
{
    stamps_are_ordered();
    precedence_is_decided();
    one_pair_joins_its_ends();
    let replies = report.replies.as_slice();
    let befores = earlier_ends(alloc, replies, report.pairs.as_slice())?;
    let parts = places_by_stamps(alloc, replies)?;
    let line = parts.as_slice();
    let cut = runs_of(alloc, report, line)?;
    let runs = cut.as_slice();
    first_out_of_place(alloc, script, report, &befores, line, runs)
}

fn first_out_of_place(
    alloc: Global,
    script: &Script,
    report: &Report,
    befores: &ByNumber,
    line: &[usize],
    runs: &[Run],
) -> Result<Option<u64>, AllocError>
    requires runs { AreRuns (is_request_before report.now) (list_at befores.now) line.now runs.now
        (length report.now.replies) }
    requires steps { AreStepsOf report.now befores.now }
    ensures { IfOk result (IsFirstFault (right.order_clause script.now report.now)) }
{
    let order = report.order.as_slice();
    let mut storage = no_marks(alloc, report.replies.as_slice().len())?;
    let marked = storage.as_mut_slice();
    let mut at = no_marks(alloc, report.replies.as_slice().len())?;
    let looked = at.as_mut_slice();
    let mut nexts = starts(alloc, runs)?;
    let passed = nexts.as_mut_slice();
    let mut tops = BySession::new(alloc, 0)?;
    for place in 0..order.len() {
        mark_before(
            alloc, report, befores, line, runs, passed, marked, looked, order, place,
        )?;
        let holds = is_in_place(script, marked, &mut tops, &order[..place], order[place]);
        if !holds {
            return Ok(Some(place as u64 + 1));
        }
    }
    Ok(None)
}

// Whether the request isn't marked, and is the last one of its session.
fn is_in_place(
    script: &Script,
    marked: &[bool],
    tops: &mut BySession,
    before: &[u32],
    request: u32,
) -> bool
    requires { AreBelowTops script.now before.now tops.old }
    ensures holds { result ≡ (not (is_marked marked.now request) && is_last_of_session script.now before.now request) }
    ensures tops { AreBelowTops script.now (before.now ++ request ∷ []) tops.new }
{
    let is_last = comes_last(script, before, request, tops);
    !is_marked(marked, request as usize) && is_last
}
