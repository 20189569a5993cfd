//! The lines of a script, taken one after another.
ghost use Rattle.std.specs.Prelude.{◌≡◌, ◌<◌, ◌^◌, ◌++◌, ◌∷◌, [], map};
ghost use Rattle.program_defs.specs.declared.script.Work.TheVariants.{Change};
ghost use Rattle.weave_script.specs.Indexed.{GivesReading, GivesReadingExactly, IsIndexed, IsIndexOf, IsReaderReady};
ghost use Rattle.weave_script.specs.Limits.{over_limit};
ghost use Rattle.weave_script.specs.Reading.{counts_so_far, start, after_tx, after_prog, after_phase, after_steps, after_item, after_header, after_line_inside, after_step, after_line_at, within_limits, after_line};
ghost use Rattle.weave_script.specs.Requests.{request_of};

use crate::fault::{Cause, LineFault};
use crate::limits::over_limit;
use crate::read::header::header_of;
use crate::read::index::Index;
use crate::read::ops::{is_end, op_in_line};
use crate::read::partial_script::{Counts, Opening, Place, Reading};
use crate::read::requests::{prog_of, tx_of};
use crate::read::steps::{Sizes, step_of};
use graph_ops::Op;
use program_defs::{Request, Step, Work};
use std::alloc::Global;
use std::collections::HashMap;
use std::mem::replace;
use weave_data::Items;
use weave_text::is;

/// How far a script has been read, and what finds its names and counts them.
#[derive(Drop)]
pub(crate) struct Reader {
    pub(crate) reading: Reading,
    pub(crate) index: Index,
}

/// Before the first line.
pub(crate) fn start(alloc: Global) -> Reader
    ensures reading { result.reading ≡ start }
    ensures ready { IsReaderReady result }
{
    Reader {
        reading: Reading {
            joins: false,
            gates: 0,
            shards: 0,
            requests: Items::new(alloc),
            phases: Items::new(alloc),
            place: Place::Start,
        },
        index: Index {
            places: HashMap::new(alloc),
            vertices: HashMap::new(alloc),
            programs: 0,
            gets: 0,
        },
    }
}

/// After a line of these words.
pub(crate) fn after_line(
    alloc: Global,
    reader: &mut Reader,
    words: &[&[u8]],
) -> Result<(), LineFault>
    requires { IsReaderReady reader.old }
    ensures { GivesReading IsReaderReady result reader.new
        (after_line reader.old.reading (map (λ word. word.now) words.now)) }
{
    match after_line_at(alloc, reader, words) {
        Ok(()) => within_limits(reader),
        Err(fault) => Err(fault),
    }
}

fn within_limits(reader: &Reader) -> Result<(), LineFault>
    requires { IsIndexed reader.now }
    ensures { GivesReadingExactly IsReaderReady result reader.now (within_limits reader.now.reading) }
{
    match over_limit(counts_so_far(reader)) {
        Some(cause) => Err(LineFault::Refused(cause)),
        None => Ok(()),
    }
}

fn counts_so_far(reader: &Reader) -> Counts
    requires { IsIndexed reader.now }
    ensures { result ≡ counts_so_far reader.now.reading }
{
    let (operations, opened, steps) = match &reader.reading.place {
        Place::Start | Place::Between => (0, 0, 0),
        Place::Inside { ops, .. } => (ops.as_slice().len(), 1, 0),
        Place::Behind { steps } => (0, 0, steps.as_slice().len()),
    };
    Counts {
        operations,
        requests: reader.reading.requests.as_slice().len() + opened,
        programs: reader.index.programs,
        gets: reader.index.gets,
        vertices: reader.index.vertices.len(),
        steps,
    }
}

fn after_line_at(alloc: Global, reader: &mut Reader, words: &[&[u8]]) -> Result<(), LineFault>
    requires { IsReaderReady reader.old }
    ensures { GivesReading IsIndexed result reader.new (after_line_at reader.old.reading.place reader.old.reading
        (map (λ word. word.now) words.now)) }
{
    let place = replace(&mut reader.reading.place, Place::Between);
    match place {
        Place::Start => after_header(reader, words),
        Place::Between => after_item(alloc, reader, words),
        Place::Inside { opening, ops } => after_line_inside(reader, opening, ops, words),
        Place::Behind { steps } => after_step(reader, steps, words),
    }
}

fn after_header(reader: &mut Reader, words: &[&[u8]]) -> Result<(), LineFault>
    requires { IsIndexOf reader.old.index reader.old.reading.requests }
    ensures { GivesReadingExactly IsIndexed result reader.new
        (after_header reader.old.reading (map (λ word. word.now) words.now)) }
{
    match header_of(words) {
        Ok(header) => {
            reader.reading.joins = header.joins;
            reader.reading.gates = header.gates;
            reader.reading.shards = header.shards;
            reader.reading.place = Place::Between;
            Ok(())
        }
        Err(cause) => Err(LineFault::Refused(cause)),
    }
}

fn after_item(alloc: Global, reader: &mut Reader, words: &[&[u8]]) -> Result<(), LineFault>
    requires place { reader.old.reading.place ≡ Place.Between }
    requires ready { IsReaderReady reader.old }
    ensures { GivesReading IsIndexed result reader.new
        (after_item reader.old.reading (map (λ word. word.now) words.now)) }
{
    let Some((word, rest)) = words.split_first() else {
        return Err(LineFault::Refused(Cause::Line));
    };
    if is(word, b"tx") {
        after_tx(alloc, reader, rest)
    } else if is(word, b"prog") {
        after_prog(reader, rest)
    } else if is(word, b"phase") {
        after_phase(reader, rest)
    } else if is(word, b"steps") {
        after_steps(alloc, reader, rest)
    } else {
        Err(LineFault::Refused(Cause::Line))
    }
}

fn after_tx(alloc: Global, reader: &mut Reader, words: &[&[u8]]) -> Result<(), LineFault>
    requires place { reader.old.reading.place ≡ Place.Between }
    requires ready { IsReaderReady reader.old }
    ensures { GivesReading IsIndexed result reader.new
        (after_tx reader.old.reading (map (λ word. word.now) words.now)) }
{
    let opening = match tx_of(reader.reading.gates, words) {
        Ok(opening) => opening,
        Err(cause) => return Err(LineFault::Refused(cause)),
    };
    if reader.index.places.contains_key(&opening.name) {
        return Err(LineFault::Refused(Cause::Taken));
    }
    let place = reader.reading.requests.as_slice().len() as u32;
    reader.index.add_transaction(opening.name, place)?;
    reader.reading.place = Place::Inside {
        opening,
        ops: Items::new(alloc),
    };
    Ok(())
}

fn after_prog(reader: &mut Reader, words: &[&[u8]]) -> Result<(), LineFault>
    requires place { reader.old.reading.place ≡ Place.Between }
    requires ready { IsReaderReady reader.old }
    ensures { GivesReading IsIndexed result reader.new
        (after_prog reader.old.reading (map (λ word. word.now) words.now)) }
{
    let (opening, program) = match prog_of(reader.reading.gates, words) {
        Ok(prog) => prog,
        Err(cause) => return Err(LineFault::Refused(cause)),
    };
    if reader.index.places.contains_key(&opening.name) {
        return Err(LineFault::Refused(Cause::Taken));
    }
    let place = reader.reading.requests.as_slice().len() as u32;
    reader.index.add_program(opening.name, place, &program)?;
    reader.reading.requests.push(Request {
        name: opening.name,
        session: opening.session,
        gate: opening.gate,
        work: Work::Look(program),
    })?;
    Ok(())
}

fn after_phase(reader: &mut Reader, words: &[&[u8]]) -> Result<(), LineFault>
    requires place { reader.old.reading.place ≡ Place.Between }
    requires ready { IsReaderReady reader.old }
    ensures { GivesReading IsIndexed result reader.new
        (after_phase reader.old.reading (map (λ word. word.now) words.now)) }
{
    if !words.is_empty() {
        return Err(LineFault::Refused(Cause::Line));
    }
    let before = reader.reading.requests.as_slice().len() as u32;
    reader.reading.phases.push(before)?;
    Ok(())
}

fn after_steps(alloc: Global, reader: &mut Reader, words: &[&[u8]]) -> Result<(), LineFault>
    requires place { reader.old.reading.place ≡ Place.Between }
    requires ready { IsReaderReady reader.old }
    ensures { GivesReadingExactly IsIndexed result reader.new
        (after_steps reader.old.reading (map (λ word. word.now) words.now)) }
{
    if !words.is_empty() {
        return Err(LineFault::Refused(Cause::Line));
    }
    reader.reading.place = Place::Behind {
        steps: Items::new(alloc),
    };
    Ok(())
}

fn after_line_inside(
    reader: &mut Reader,
    opening: Opening,
    mut ops: Items<Op>,
    words: &[&[u8]],
) -> Result<(), LineFault>
    requires indexed { IsIndexOf reader.old.index
        (reader.old.reading.requests ++ request_of opening (Change ops) ∷ []) }
    requires room { reader.old.index.gets < 2 ^ 32 }
    ensures { GivesReading IsIndexed result reader.new
        (after_line_inside reader.old.reading opening ops (map (λ word. word.now) words.now)) }
{
    if is_end(words) {
        reader.reading.requests.push(Request {
            name: opening.name,
            session: opening.session,
            gate: opening.gate,
            work: Work::Change(ops),
        })?;
        reader.reading.place = Place::Between;
        return Ok(());
    }
    let op = match op_in_line(reader.reading.joins, words) {
        Ok(op) => op,
        Err(cause) => return Err(LineFault::Refused(cause)),
    };
    reader.index.add_op(&op)?;
    ops.push(op)?;
    reader.reading.place = Place::Inside { opening, ops };
    Ok(())
}

fn after_step(reader: &mut Reader, mut steps: Items<Step>, words: &[&[u8]]) -> Result<(), LineFault>
    requires { IsIndexOf reader.old.index reader.old.reading.requests }
    ensures { GivesReading IsIndexed result reader.new
        (after_step reader.old.reading steps (map (λ word. word.now) words.now)) }
{
    let sizes = Sizes {
        gates: reader.reading.gates,
        shards: reader.reading.shards,
    };
    match step_of(sizes, &reader.index.places, words) {
        Ok(step) => {
            steps.push(step)?;
            reader.reading.place = Place::Behind { steps };
            Ok(())
        }
        Err(cause) => Err(LineFault::Refused(cause)),
    }
}
