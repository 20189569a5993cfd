//! States and answers.
ghost use Rattle.std.specs.Prelude.{◌≡◌, ◌∷◌, false};
ghost use Rattle.program_defs.specs.PlainAnswer.{is_price};
ghost use Rattle.weave_report.specs.ReadAnswers.{Gives};
ghost use Rattle.weave_report.specs.ReadingStates.{answer_in, is_answer_form, is_state_form, read_state, walk_in};

use crate::fault::LineFault;
use crate::read::fields::names_in;
use crate::read::record::items_in;
use graph_ops::Record;
use program_defs::{Answer, Program};
use std::alloc::Global;
use weave_text::{Pieces, is};

/// Whether the words have the form of a state.
pub(crate) fn is_state_form(form: &[u8], items: &Pieces) -> bool
    ensures { result ≡ is_state_form (form.now ∷ items.now) }
{
    is(form, b"record") || (is(form, b"absent") && items.is_empty())
}

/// A state, of words of its form.
pub(crate) fn state_in(
    alloc: Global,
    form: &[u8],
    items: Pieces,
) -> Result<Option<Record>, LineFault>
    ensures { Gives result (read_state (form.now ∷ items.entry)) }
{
    if !is(form, b"record") {
        return Ok(None);
    }
    let held = items_in(alloc, items)?;
    Ok(Some(held))
}

/// Whether the words have the form of the program's answer. Those of an answer to `price` are in `priced`.
pub(crate) fn is_answer_form(program: &Program, form: &[u8], items: &Pieces) -> bool
    requires { is_price program.now ≡ false }
    ensures { result ≡ is_answer_form program.now (form.now ∷ items.now) }
{
    match program {
        Program::Show { .. } => is_state_form(form, items),
        Program::Reach { .. } => (is(form, b"yes") || is(form, b"no")) && items.is_empty(),
        Program::Around { .. } => is(form, b"found"),
        Program::Path { .. } => is(form, b"path") || (is(form, b"none") && items.is_empty()),
        // The condition excludes it.
        Program::Price { .. } => false,
    }
}

/// The program's answer, of words of its form.
pub(crate) fn answer_in(
    alloc: Global,
    program: &Program,
    form: &[u8],
    items: Pieces,
) -> Result<Answer, LineFault>
    requires { is_price program.now ≡ false }
    ensures { Gives result (answer_in program.now (form.now ∷ items.entry)) }
{
    match program {
        Program::Show { .. } => {
            let state = state_in(alloc, form, items)?;
            Ok(Answer::Shown(state))
        }
        Program::Reach { .. } => Ok(Answer::Reached(is(form, b"yes"))),
        Program::Around { .. } => {
            let names = names_in(alloc, items)?;
            Ok(Answer::Found(names))
        }
        Program::Path { .. } => walk_in(alloc, form, items),
        // The condition excludes it.
        Program::Price { .. } => Err(LineFault::Memory),
    }
}

fn walk_in(alloc: Global, form: &[u8], names: Pieces) -> Result<Answer, LineFault>
    ensures { Gives result (walk_in (form.now ∷ names.entry)) }
{
    if !is(form, b"path") {
        return Ok(Answer::Walk(None));
    }
    let names = names_in(alloc, names)?;
    Ok(Answer::Walk(Some(names)))
}
