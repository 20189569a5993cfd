//! What calls answer, as texts.

use crate::answer_texts::word;
use crate::texts::{write_names, write_stamp, write_state, write_verdict};
use program_defs::Answer;
use std::alloc::{AllocError, Global};
use std::process::Abort;
use vector_stamp::Stamp;
use weave_entries::Verdict;
use weave_text::Text;
use weaver_hands::HandFault;

/// The stamp and the verdict.
pub fn judged_text(rt: &impl Abort, alloc: Global, stamp: &Stamp, verdict: &Verdict) -> Vec<u8> {
    let mut text = Text::new(alloc);
    write_stamp(&mut text, stamp).expect(rt, "memory");
    text.push(b" ").expect(rt, "memory");
    write_verdict(&mut text, verdict).expect(rt, "memory");
    text.into_bytes()
}

/// The words of a program's answer.
pub fn answer_text(rt: &impl Abort, alloc: Global, answer: &Answer) -> Vec<u8> {
    let mut text = Text::new(alloc);
    write_answer(&mut text, answer).expect(rt, "memory");
    text.into_bytes()
}

/// `ok`, or why a call was refused.
pub fn done_text(rt: &impl Abort, alloc: Global, done: &Result<(), HandFault>) -> Vec<u8> {
    match done {
        Ok(()) => word(rt, alloc, b"ok"),
        Err(fault) => fault_text(rt, alloc, fault),
    }
}

/// `busy`, `not yet SHARD GATE`, `empty`, `waits V` or `memory`.
pub fn fault_text(rt: &impl Abort, alloc: Global, fault: &HandFault) -> Vec<u8> {
    let mut text = Text::new(alloc);
    write_fault(&mut text, fault).expect(rt, "memory");
    text.into_bytes()
}

fn write_fault(text: &mut Text, fault: &HandFault) -> Result<(), AllocError> {
    match fault {
        HandFault::Busy => text.push(b"busy"),
        HandFault::NotYet { shard, gate } => {
            text.push(b"not yet")?;
            text.number_word(u64::from(*shard))?;
            text.number_word(u64::from(*gate))
        }
        HandFault::Empty => text.push(b"empty"),
        HandFault::Waits { vertex } => {
            text.push(b"waits")?;
            text.word(vertex.bytes())
        }
        HandFault::Memory => text.push(b"memory"),
    }
}

fn write_answer(text: &mut Text, answer: &Answer) -> Result<(), AllocError> {
    match answer {
        Answer::Shown(state) => write_state(text, state),
        Answer::Reached(true) => text.push(b"yes"),
        Answer::Reached(false) => text.push(b"no"),
        Answer::Found(vertices) => {
            text.push(b"found")?;
            write_names(text, vertices.as_slice())
        }
        Answer::Walk(None) => text.push(b"none"),
        Answer::Walk(Some(vertices)) => {
            text.push(b"path")?;
            write_names(text, vertices.as_slice())
        }
        Answer::Priced { total, .. } => {
            text.push(b"price")?;
            match u64::try_from(*total) {
                Ok(total) => text.number_word(total),
                Err(_) => text.push(b" more"),
            }
        }
    }
}
