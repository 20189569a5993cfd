//! Why a report isn't right.
ghost use Rattle.report_rules.specs.RightReport.{BreaksFirst};

use crate::clause_words::clause_words;
use crate::conflict_clause::conflict_clause;
use crate::listing_clause::listing_clause;
use crate::number_clause::number_clause;
use crate::order_clause::order_clause;
use crate::pair_clause::pair_clause;
use crate::refusal_clause::refusal_clause;
use crate::replay_clause::replay_clause;
use crate::reply_clause::reply_clause;
use explain_case::Case;
use explain_lines::say_line;
use report_rules::Clause;
use std::alloc::{AllocError, Global};
use weave_text::Text;

/// Says why a report breaks a clause at a place; the two are those that the judge of reports names.
pub fn wrong_words(
    alloc: Global,
    text: &mut Text,
    case: &Case,
    clause: Clause,
    place: u64,
) -> Result<(), AllocError>
    requires { BreaksFirst case.now.script.now case.now.report.now clause place }
{
    say_line(text, "The report isn't right for the script.", &[])?;
    say_line(text, clause_words(clause), &[])?;
    match clause {
        Clause::I => reply_clause(text, case, place),
        Clause::Ii => listing_clause(alloc, text, case, place),
        Clause::Iii => order_clause(alloc, text, case, place),
        Clause::Iv => replay_clause(alloc, text, case, place),
        Clause::V => pair_clause(alloc, text, case, place),
        Clause::Vi => conflict_clause(alloc, text, case, place),
        Clause::Vii => refusal_clause(alloc, text, case, place),
        Clause::Viii => number_clause(alloc, text, case, place),
    }
}
