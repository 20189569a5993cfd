//! The lines that begin a transaction, and those that are a program.
ghost use Rattle.std.specs.Prelude.{◌≡◌, map};
ghost use Rattle.weave_script.specs.Requests.{opening_of, tx_of, filter_of, tag_of, bound_word, show_program, reach_program, around_program, path_program, price_program, show_of, reach_of, around_of, path_of, price_of, program_of, prog_of};

use crate::fault::Cause;
use crate::limits::MOST_BOUND;
use crate::read::fields::{name_of, number_in};
use crate::read::partial_script::Opening;
use program_defs::{Filter, Program};
use weave_data::MOST_SESSIONS;
use weave_text::is;

// The greatest number of a session.
const LAST_SESSION: u32 = MOST_SESSIONS - 1;

/// The beginning of a transaction, from the words after `tx`.
pub(crate) fn tx_of(gates: u32, words: &[&[u8]]) -> Result<Opening, Cause>
    ensures { result ≡ tx_of gates (map (λ word. word.now) words.now) }
{
    match words {
        [name, session, gate] => opening_of(gates, name, session, gate),
        _ => Err(Cause::Line),
    }
}

/// A program and the fields before it, from the words after `prog`.
pub(crate) fn prog_of(gates: u32, words: &[&[u8]]) -> Result<(Opening, Program), Cause>
    ensures { result ≡ prog_of gates (map (λ word. word.now) words.now) }
{
    let [name, session, gate, rest @ ..] = words else {
        return Err(Cause::Line);
    };
    let Some(program) = program_of(rest) else {
        return Err(Cause::Line);
    };
    let opening = opening_of(gates, name, session, gate)?;
    Ok((opening, program?))
}

fn opening_of(gates: u32, name: &[u8], session: &[u8], gate: &[u8]) -> Result<Opening, Cause>
    ensures { result ≡ opening_of gates name.now session.now gate.now }
{
    Ok(Opening {
        name: name_of(name)?,
        session: number_in(0, LAST_SESSION, Cause::Session, session)?,
        gate: number_in(0, gates.saturating_sub(1), Cause::Gatekeeper, gate)?,
    })
}

// `None` if the words don't have this form; otherwise the result of reading its fields. The same holds below.
fn program_of(words: &[&[u8]]) -> Option<Result<Program, Cause>>
    ensures { result ≡ program_of (map (λ word. word.now) words.now) }
{
    let (word, rest) = words.split_first()?;
    if is(word, b"show") {
        show_of(rest)
    } else if is(word, b"reach") {
        reach_of(rest)
    } else if is(word, b"around") {
        around_of(rest)
    } else if is(word, b"path") {
        path_of(rest)
    } else if is(word, b"price") {
        price_of(rest)
    } else {
        None
    }
}

fn show_of(words: &[&[u8]]) -> Option<Result<Program, Cause>>
    ensures { result ≡ show_of (map (λ word. word.now) words.now) }
{
    match words {
        [v] => Some(show_program(v)),
        _ => None,
    }
}

fn reach_of(words: &[&[u8]]) -> Option<Result<Program, Cause>>
    ensures { result ≡ reach_of (map (λ word. word.now) words.now) }
{
    match words {
        [from, to, rest @ ..] => Some(reach_program(from, to, filter_of(rest)?)),
        _ => None,
    }
}

fn around_of(words: &[&[u8]]) -> Option<Result<Program, Cause>>
    ensures { result ≡ around_of (map (λ word. word.now) words.now) }
{
    match words {
        [from, bound, rest @ ..] => Some(around_program(from, bound, filter_of(rest)?)),
        _ => None,
    }
}

fn path_of(words: &[&[u8]]) -> Option<Result<Program, Cause>>
    ensures { result ≡ path_of (map (λ word. word.now) words.now) }
{
    match words {
        [from, to, bound, rest @ ..] => Some(path_program(from, to, bound, filter_of(rest)?)),
        _ => None,
    }
}

fn price_of(words: &[&[u8]]) -> Option<Result<Program, Cause>>
    ensures { result ≡ price_of (map (λ word. word.now) words.now) }
{
    match words {
        [from, to, key] => Some(price_program(from, to, key)),
        _ => None,
    }
}

fn show_program(v: &[u8]) -> Result<Program, Cause>
    ensures { result ≡ show_program v.now }
{
    Ok(Program::Show { v: name_of(v)? })
}

fn reach_program(
    from: &[u8],
    to: &[u8],
    filter: Result<Option<Filter>, Cause>,
) -> Result<Program, Cause>
    ensures { result ≡ reach_program from.now to.now filter }
{
    Ok(Program::Reach {
        from: name_of(from)?,
        to: name_of(to)?,
        pass: filter?,
    })
}

fn around_program(
    from: &[u8],
    bound: &[u8],
    filter: Result<Option<Filter>, Cause>,
) -> Result<Program, Cause>
    ensures { result ≡ around_program from.now bound.now filter }
{
    Ok(Program::Around {
        from: name_of(from)?,
        bound: bound_of(bound)?,
        pass: filter?,
    })
}

fn path_program(
    from: &[u8],
    to: &[u8],
    bound: &[u8],
    filter: Result<Option<Filter>, Cause>,
) -> Result<Program, Cause>
    ensures { result ≡ path_program from.now to.now bound.now filter }
{
    Ok(Program::Path {
        from: name_of(from)?,
        to: name_of(to)?,
        bound: bound_of(bound)?,
        pass: filter?,
    })
}

fn price_program(from: &[u8], to: &[u8], key: &[u8]) -> Result<Program, Cause>
    ensures { result ≡ price_program from.now to.now key.now }
{
    Ok(Program::Price {
        from: name_of(from)?,
        to: name_of(to)?,
        key: name_of(key)?,
    })
}

fn bound_of(word: &[u8]) -> Result<u32, Cause>
    ensures { result ≡ bound_word word.now }
{
    number_in(0, MOST_BOUND, Cause::Bound, word)
}

// No filter, or the one after `where`.
fn filter_of(words: &[&[u8]]) -> Option<Result<Option<Filter>, Cause>>
    ensures { result ≡ filter_of (map (λ word. word.now) words.now) }
{
    match words {
        [] => Some(Ok(None)),
        [word, key, value] if is(word, b"where") => Some(tag_of(key, value)),
        _ => None,
    }
}

fn tag_of(key: &[u8], value: &[u8]) -> Result<Option<Filter>, Cause>
    ensures { result ≡ tag_of key.now value.now }
{
    Ok(Some(Filter {
        key: name_of(key)?,
        value: name_of(value)?,
    }))
}
