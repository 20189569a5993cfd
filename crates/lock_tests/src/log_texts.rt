//! The logs of closed machines as a text, a line for each entry.

use crate::texts::{
    write_clock, write_message, write_names, write_ops, write_stamp, write_stamp_word,
    write_verdict,
};
use shard_node::Shard;
use std::alloc::{AllocError, Global};
use vector_stamp::Stamp;
use weave_entries::{
    Addressed, GateDeed, GateEntry, OracleDeed, OracleEntry, ShardDeed, ShardEntry, StoreDeed,
    StoreEntry,
};
use weave_text::Text;
use weaver_locks::Closed;

/// All logs: those of the gatekeepers, of the store, of the oracle and of the shards.
pub fn text_of_logs(alloc: Global, closed: &Closed) -> Result<Vec<u8>, AllocError> {
    let mut text = Text::new(alloc);
    for gate in &closed.gates {
        text.push(b"gate\n")?;
        write_gate_log(&mut text, gate.log())?;
    }
    text.push(b"store\n")?;
    write_store_log(&mut text, closed.store.log())?;
    text.push(b"oracle\n")?;
    write_oracle_log(&mut text, closed.oracle.log())?;
    for shard in &closed.shards {
        text.push(b"shard\n")?;
        write_shard_log(&mut text, shard.log())?;
    }
    Ok(text.into_bytes())
}

/// The log of a shard alone.
pub fn text_of_shard(alloc: Global, shard: &Shard) -> Result<Vec<u8>, AllocError> {
    let mut text = Text::new(alloc);
    write_shard_log(&mut text, shard.log())?;
    Ok(text.into_bytes())
}

fn write_gate_log(text: &mut Text, log: &[GateEntry]) -> Result<(), AllocError> {
    for entry in log {
        text.number(u64::from(entry.author))?;
        write_gate_deed(text, &entry.deed)?;
        text.end_line()?;
    }
    Ok(())
}

fn write_gate_deed(text: &mut Text, deed: &GateDeed) -> Result<(), AllocError> {
    match deed {
        GateDeed::BeganTx { request, stamp } => write_begin(text, b"transaction", *request, stamp),
        GateDeed::BeganProgram { request, stamp } => write_begin(text, b"program", *request, stamp),
        GateDeed::Sent { request, messages } => {
            text.word(b"sent")?;
            text.number_word(u64::from(*request))?;
            write_addressed(text, messages.as_slice())
        }
        GateDeed::Nop {
            shard,
            number,
            stamp,
            low,
        } => {
            text.word(b"nop")?;
            text.number_word(u64::from(*shard))?;
            text.number_word(*number)?;
            write_stamp_word(text, stamp)?;
            text.push(b" low ")?;
            write_clock(text, low)
        }
        GateDeed::Heard { clock } => {
            text.push(b" heard ")?;
            write_clock(text, clock)
        }
        GateDeed::Raised { epoch } => {
            text.word(b"raised")?;
            text.number_word(*epoch)
        }
        GateDeed::Finished { request } => {
            text.word(b"finished")?;
            text.number_word(u64::from(*request))
        }
    }
}

fn write_begin(
    text: &mut Text,
    kind: &[u8],
    request: u32,
    stamp: &Stamp,
) -> Result<(), AllocError> {
    text.word(kind)?;
    text.number_word(u64::from(request))?;
    write_stamp_word(text, stamp)
}

fn write_addressed(text: &mut Text, messages: &[Addressed]) -> Result<(), AllocError> {
    for addressed in messages {
        text.word(b"to")?;
        text.number_word(u64::from(addressed.shard))?;
        text.number_word(addressed.number)?;
        text.push(b" ")?;
        write_message(text, &addressed.message)?;
    }
    Ok(())
}

fn write_store_log(text: &mut Text, log: &[StoreEntry]) -> Result<(), AllocError> {
    for entry in log {
        text.number(u64::from(entry.author))?;
        write_store_deed(text, &entry.deed)?;
        text.end_line()?;
    }
    Ok(())
}

fn write_store_deed(text: &mut Text, deed: &StoreDeed) -> Result<(), AllocError> {
    let StoreDeed::Judged {
        request,
        stamp,
        ops,
        asked,
        verdict,
    } = deed;
    write_begin(text, b"judged", *request, stamp)?;
    write_ops(text, ops.as_slice())?;
    text.push(b"; asked")?;
    write_names(text, asked.as_slice())?;
    text.push(b"; ")?;
    write_verdict(text, verdict)
}

fn write_oracle_log(text: &mut Text, log: &[OracleEntry]) -> Result<(), AllocError> {
    for entry in log {
        text.number(u64::from(entry.author))?;
        write_oracle_deed(text, &entry.deed)?;
        text.end_line()?;
    }
    Ok(())
}

fn write_oracle_deed(text: &mut Text, deed: &OracleDeed) -> Result<(), AllocError> {
    let OracleDeed::Settled {
        earlier,
        later,
        places,
    } = deed;
    text.word(b"put")?;
    for stamp in earlier.as_slice() {
        write_stamp_word(text, stamp)?;
    }
    text.push(b" before ")?;
    write_stamp(text, later)?;
    text.word(b"at")?;
    for place in places.as_slice() {
        text.number_word(u64::from(*place))?;
    }
    Ok(())
}

fn write_shard_log(text: &mut Text, log: &[ShardEntry]) -> Result<(), AllocError> {
    for entry in log {
        text.number(u64::from(entry.author))?;
        write_shard_deed(text, &entry.deed)?;
        text.end_line()?;
    }
    Ok(())
}

fn write_shard_deed(text: &mut Text, deed: &ShardDeed) -> Result<(), AllocError> {
    match deed {
        ShardDeed::Arrived {
            gate,
            number,
            message,
        } => {
            write_place(text, b"arrived", *gate, *number)?;
            text.push(b" ")?;
            write_message(text, message)
        }
        ShardDeed::Applied { gate, number } => write_place(text, b"applied", *gate, *number),
        ShardDeed::Visited {
            request,
            stamp,
            vertex,
            updates,
            settled,
        } => {
            write_begin(text, b"visited", *request, stamp)?;
            text.word(vertex.bytes())?;
            text.number_word(*updates)?;
            text.word(settled_word(*settled))
        }
        ShardDeed::Collected { bound: None } => text.word(b"collected nothing"),
        ShardDeed::Collected { bound: Some(clock) } => {
            text.push(b" collected ")?;
            write_clock(text, clock)
        }
    }
}

fn write_place(text: &mut Text, word: &[u8], gate: u32, number: u64) -> Result<(), AllocError> {
    text.word(word)?;
    text.number_word(u64::from(gate))?;
    text.number_word(number)
}

// Whether the oracle put the visit's program after the last update that it reads.
fn settled_word(settled: bool) -> &'static [u8] {
    if settled {
        return b"settled";
    }
    b"ordered"
}
