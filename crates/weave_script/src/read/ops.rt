//! The lines of a transaction.
ghost use Rattle.std.specs.Prelude.{◌≡◌, ◌∷◌, [], map};
ghost use Rattle.weave_script.specs.Ops.{is_end, op_in, op_in_line, op_of};

use crate::fault::Cause;
use crate::read::fields::name_of;
use graph_ops::Op;
use weave_text::is;

/// Whether the words end a transaction.
pub(crate) fn is_end(words: &[&[u8]]) -> bool
    ensures { result ≡ is_end (map (λ word. word.now) words.now) }
{
    match words {
        [word] => is(word, b"end"),
        _ => false,
    }
}

/// The operation of these words. In version 2 `link` is a join.
pub fn op_in_line(joins: bool, words: &[&[u8]]) -> Result<Op, Cause>
    ensures { result ≡ op_in_line joins (map (λ word. word.now) words.now) }
{
    match op_of(words) {
        Ok(op) => Ok(op_in(&op, joins)),
        Err(cause) => Err(cause),
    }
}

// The operation of version 1 as this version means it.
fn op_in(op: &Op, joins: bool) -> Op
    ensures { result ≡ op_in op.now joins }
{
    match *op {
        Op::Link { v, edge, target } => {
            if joins {
                Op::Join { v, edge, target }
            } else {
                Op::Link { v, edge, target }
            }
        }
        _ => *op,
    }
}

// The operation of these words in version 1.
fn op_of(words: &[&[u8]]) -> Result<Op, Cause>
    ensures { result ≡ op_of (map (λ word. word.now) words.now) }
{
    match words {
        [word, v] => op_of_one(word, v),
        [word, v, other] => op_of_two(word, v, other),
        [word, v, other, last] => op_of_three(word, v, other, last),
        [word, v, edge, key, value] => op_of_four(word, v, edge, key, value),
        _ => Err(Cause::Line),
    }
}

fn op_of_one(word: &[u8], v: &[u8]) -> Result<Op, Cause>
    ensures { result ≡ op_of (word.now ∷ v.now ∷ []) }
{
    if is(word, b"create") {
        Ok(Op::Create { v: name_of(v)? })
    } else if is(word, b"delete") {
        Ok(Op::Delete { v: name_of(v)? })
    } else if is(word, b"get") {
        Ok(Op::Get { v: name_of(v)? })
    } else {
        Err(Cause::Line)
    }
}

fn op_of_two(word: &[u8], v: &[u8], other: &[u8]) -> Result<Op, Cause>
    ensures { result ≡ op_of (word.now ∷ v.now ∷ other.now ∷ []) }
{
    if is(word, b"unset") {
        Ok(Op::Unset {
            v: name_of(v)?,
            key: name_of(other)?,
        })
    } else if is(word, b"unlink") {
        Ok(Op::Unlink {
            v: name_of(v)?,
            edge: name_of(other)?,
        })
    } else {
        Err(Cause::Line)
    }
}

fn op_of_three(word: &[u8], v: &[u8], other: &[u8], last: &[u8]) -> Result<Op, Cause>
    ensures { result ≡ op_of (word.now ∷ v.now ∷ other.now ∷ last.now ∷ []) }
{
    if is(word, b"set") {
        Ok(Op::Set {
            v: name_of(v)?,
            key: name_of(other)?,
            value: name_of(last)?,
        })
    } else if is(word, b"link") {
        Ok(Op::Link {
            v: name_of(v)?,
            edge: name_of(other)?,
            target: name_of(last)?,
        })
    } else if is(word, b"untag") {
        Ok(Op::Untag {
            v: name_of(v)?,
            edge: name_of(other)?,
            key: name_of(last)?,
        })
    } else {
        Err(Cause::Line)
    }
}

fn op_of_four(word: &[u8], v: &[u8], edge: &[u8], key: &[u8], value: &[u8]) -> Result<Op, Cause>
    ensures { result ≡ op_of (word.now ∷ v.now ∷ edge.now ∷ key.now ∷ value.now ∷ []) }
{
    if !is(word, b"tag") {
        return Err(Cause::Line);
    }
    Ok(Op::Tag {
        v: name_of(v)?,
        edge: name_of(edge)?,
        key: name_of(key)?,
        value: name_of(value)?,
    })
}
