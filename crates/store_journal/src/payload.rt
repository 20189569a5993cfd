//! The payload of a record: written of a commit, and read.
ghost use Rattle.std.specs.Prelude.{◌≡◌, ◌≤◌, ◌<◌, ◌^◌, ◌++◌, ◌∷◌, [], length, IfOk, OnOk};
ghost use Rattle.std.specs.Int.{w64, from_be_bytes};
ghost use Rattle.std.specs.List.{AllByRecursion};
ghost use Rattle.weave_data.specs.Limits.{most_ops};
ghost use Rattle.weave_text.specs.Cutting.{lines_of};
ghost use Rattle.weave_script.specs.ScriptLines.{is_join};
ghost use Rattle.weave_script.specs.Scripts.{IsOperation};
ghost use Rattle.store_journal.specs.Journal.{framed};
ghost use Rattle.store_journal.specs.Payloads.{commit_said, commit_with, has_join, if_written_so, kept_stamp, ops_after, payload_of, said_after, stamp_of_bytes, version_byte};

use crate::kept_commit::Commit;
use graph_ops::Op;
use std::alloc::{AllocError, Global};
use vector_stamp::{Clock, Stamp};
use weave_data::{Items, MOST_OPS};
use weave_script::{op_in_line, operations_come_back, print_ops};
use weave_text::{Text, first_line, words};

/// How many bytes a payload has for its stamp.
const STAMP_BYTES: usize = 16;

/// The record of a commit without its gate byte, and a closed gate after it.
pub fn record_of(alloc: Global, stamp: &Stamp, ops: &[Op]) -> Result<Vec<u8>, AllocError>
    requires { length ops.now ≤ most_ops }
    ensures bytes { IfOk result (λ bytes. bytes.items
        ≡ framed (payload_of (commit_with stamp.now ops.now)) ++ 0 ∷ []) }
    ensures typed { OnOk result (AllByRecursion IsOperation ops.now) }
    ensures short { OnOk result (length (payload_of (commit_with stamp.now ops.now)) < 2 ^ 32) }
{
    operations_come_back();
    let mut text = Text::new(alloc);
    print_payload(&mut text, stamp, ops)?;
    let payload = text.into_bytes();
    let size = payload.len() as u32;
    let mut record = Text::new(alloc);
    record.push(&size.to_be_bytes())?;
    record.push(payload.as_slice())?;
    record.push(&[0])?;
    Ok(record.into_bytes())
}

// Writes the payload of a commit with this stamp and these operations.
fn print_payload(text: &mut Text, stamp: &Stamp, ops: &[Op]) -> Result<(), AllocError>
    ensures text { OnOk result (text.new ≡ text.old ++ payload_of (commit_with stamp.now ops.now)) }
    ensures typed { OnOk result (AllByRecursion IsOperation ops.now) }
{
    text.push(&[version_byte(ops)])?;
    text.push(&stamp.clock.epoch.to_be_bytes())?;
    text.push(&stamp.own_count().to_be_bytes())?;
    print_ops(text, ops)?;
    Ok(())
}

/// The commit that a payload says, if there is one.
pub fn commit_said(alloc: Global, payload: &[u8]) -> Result<Option<Commit>, AllocError>
    ensures { IfOk result (λ said. said ≡ commit_said payload.now) }
{
    match payload.split_first() {
        Some((version, rest)) => said_after(alloc, payload, *version, rest),
        None => Ok(None),
    }
}

fn said_after(
    alloc: Global,
    payload: &[u8],
    version: u8,
    rest: &[u8],
) -> Result<Option<Commit>, AllocError>
    ensures { IfOk result (λ said. said ≡ said_after payload.now version rest.now) }
{
    if rest.len() < STAMP_BYTES {
        return Ok(None);
    }
    let stamp = stamp_of_bytes(rest);
    let Some(ops) = ops_in(alloc, version == 2, &rest[STAMP_BYTES..])? else {
        return Ok(None);
    };
    if_written_so(alloc, payload, Commit { stamp, ops })
}

// The commit, if it has at most 64 operations and this is its payload.
fn if_written_so(
    alloc: Global,
    payload: &[u8],
    commit: Commit,
) -> Result<Option<Commit>, AllocError>
    ensures { IfOk result (λ said. said ≡ if_written_so payload.now commit) }
{
    if commit.ops.as_slice().len() > MOST_OPS {
        return Ok(None);
    }
    let mut text = Text::new(alloc);
    print_payload(&mut text, &commit.stamp, commit.ops.as_slice())?;
    let written = text.into_bytes();
    if written.as_slice() == payload {
        return Ok(Some(commit));
    }
    Ok(None)
}

// The operations of the lines of a text, in a version.
fn ops_in(alloc: Global, joins: bool, text: &[u8]) -> Result<Option<Items<Op>>, AllocError>
    ensures { IfOk result (λ ops. ops ≡ ops_after joins [] (lines_of text.now)) }
{
    let mut ops = Items::new(alloc);
    let mut left = text;
    while let Some((line, rest)) = first_line(left) {
        let words = words(alloc, line)?;
        let Ok(op) = op_in_line(joins, words.as_slice()) else {
            return Ok(None);
        };
        ops.push(op)?;
        left = rest;
    }
    Ok(Some(ops))
}

fn stamp_of_bytes(bytes: &[u8]) -> Stamp
    requires { 16 ≤ length bytes.now }
    ensures { result ≡ stamp_of_bytes bytes.now }
{
    kept_stamp(number_in(bytes), number_in(&bytes[8..]))
}

/// The stamp of gatekeeper 0 in this epoch with this own count, and no other.
pub fn kept_stamp(epoch: u64, count: u64) -> Stamp
    ensures { result ≡ kept_stamp epoch count }
{
    Stamp {
        home: 0,
        clock: Clock {
            epoch,
            counts: [count, 0, 0, 0, 0, 0, 0, 0],
        },
    }
}

// The number that the first eight bytes are.
fn number_in(bytes: &[u8]) -> u64
    requires { 8 ≤ length bytes.now }
    ensures { result ≡ from_be_bytes w64 bytes.now }
{
    u64::from_be_bytes([
        bytes[0], bytes[1], bytes[2], bytes[3], bytes[4], bytes[5], bytes[6], bytes[7],
    ])
}

fn version_byte(ops: &[Op]) -> u8
    ensures { result ≡ version_byte ops.now }
{
    if has_join(ops) { 2 } else { 1 }
}

fn has_join(ops: &[Op]) -> bool
    ensures { result ≡ has_join ops.now }
{
    ops.iter().any(|op| is_join(op))
}

fn is_join(op: &Op) -> bool
    ensures { result ≡ is_join op.now }
{
    op.needs().is_some()
}
