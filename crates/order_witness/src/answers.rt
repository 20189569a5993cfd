//! Answers of `get`s and of programs, compared by value.
ghost use Rattle.std.specs.Prelude.{◌≡◌, Some, length};
ghost use Rattle.std.specs.Option.{option_eq};
ghost use Rattle.weave_data.specs.Names.{same_name};
ghost use Rattle.program_defs.specs.declared.program.Answer.{Answer};
ghost use Rattle.std.specs.Cmp.Lexicographic.{pointwise};
ghost use Rattle.order_witness.specs.Answers.{same_got, same_outcome};

use graph_ops::{Got, Record};
use program_defs::Answer;
use weave_data::{Items, Name};

/// Whether the answers are the same.
pub fn same_answers(answers: &[Got], others: &[Got]) -> bool
    ensures { result ≡ pointwise same_got answers.now others.now }
{
    answers.len() == others.len() && same_pairs(answers, others)
}

fn same_pairs(answers: &[Got], others: &[Got]) -> bool
    requires { length answers.now ≡ length others.now }
    ensures { result ≡ pointwise same_got answers.now others.now }
{
    answers
        .iter()
        .zip(others)
        .all(|(answer, other)| same_answer(answer, other))
}

fn same_answer(answer: &Got, other: &Got) -> bool
    ensures { result ≡ same_got answer.now other.now }
{
    answer.op == other.op && answer.state == other.state
}

/// Whether a program's answers are the same. Those to `price` aren't compared: the answer is `false`.
pub fn same_outcome(answer: &Answer, other: &Answer) -> bool
    ensures { result ≡ same_outcome answer.now other.now }
{
    match answer {
        Answer::Shown(state) => is_shown(state, other),
        Answer::Reached(reached) => is_reached(*reached, other),
        Answer::Found(vertices) => is_found(vertices.as_slice(), other),
        Answer::Walk(walk) => is_walk(walk, other),
        Answer::Priced { .. } => false,
    }
}

fn is_shown(state: &Option<Record>, other: &Answer) -> bool
    ensures { result ≡ same_outcome (Answer.Shown state.now) other.now }
{
    match other {
        Answer::Shown(other) => *state == *other,
        _ => false,
    }
}

fn is_reached(reached: bool, other: &Answer) -> bool
    ensures { result ≡ same_outcome (Answer.Reached reached) other.now }
{
    match other {
        Answer::Reached(other) => reached == *other,
        _ => false,
    }
}

fn is_found(vertices: &[Name], other: &Answer) -> bool
    ensures { result ≡ same_outcome (Answer.Found vertices.now) other.now }
{
    match other {
        Answer::Found(others) => same_vertices(vertices, others.as_slice()),
        _ => false,
    }
}

fn is_walk(walk: &Option<Items<Name>>, other: &Answer) -> bool
    ensures { result ≡ same_outcome (Answer.Walk walk.now) other.now }
{
    match other {
        Answer::Walk(other) => same_walk(walk, other),
        _ => false,
    }
}

fn same_walk(walk: &Option<Items<Name>>, other: &Option<Items<Name>>) -> bool
    ensures { result ≡ option_eq (pointwise same_name) walk.now other.now }
{
    match walk {
        Some(vertices) => is_that_walk(vertices.as_slice(), other),
        None => other.is_none(),
    }
}

fn is_that_walk(vertices: &[Name], other: &Option<Items<Name>>) -> bool
    ensures { result ≡ option_eq (pointwise same_name) (Some vertices.now) other.now }
{
    match other {
        Some(others) => same_vertices(vertices, others.as_slice()),
        None => false,
    }
}

fn same_vertices(vertices: &[Name], others: &[Name]) -> bool
    ensures { result ≡ pointwise same_name vertices.now others.now }
{
    vertices.len() == others.len() && same_in_turn(vertices, others)
}

fn same_in_turn(vertices: &[Name], others: &[Name]) -> bool
    requires { length vertices.now ≡ length others.now }
    ensures { result ≡ pointwise same_name vertices.now others.now }
{
    vertices
        .iter()
        .zip(others)
        .all(|(vertex, other)| *vertex == *other)
}
