//! The law of the headline of `run`.
ghost use Rattle.std.specs.Prelude.{◌↔◌, ℕ, List};
ghost use Rattle.promise_laws.specs.KeptTexts.{IsKeptText};
ghost use Rattle.weaver_top.specs.Headlines.{TellsRightReport};

use run_judge::laws::clauses_say_what_run_promises;

/// The headline of `run` allows a text for an input exactly if it is the printed text of a report of the input's script
/// that is right and breaks none of the clauses that `judge_run` judges.
pub fn headline_allows_what_is_kept()
    ensures { (input text : List ℕ) → TellsRightReport input text ↔ IsKeptText input text }
{
    clauses_say_what_run_promises();
}
