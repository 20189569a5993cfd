//! Whether two messages are the same.
use graph_ops::{Op, Part};
use weave_entries::Message;

fn same_op(op: &Op, other: &Op) -> bool {
    op.word() == other.word() && op.fields().as_slice() == other.fields().as_slice()
}

fn same_ops(ops: &[Op], wanted: &[Op]) -> bool {
    ops.len() == wanted.len() && ops.iter().zip(wanted).all(|(op, other)| same_op(op, other))
}

fn same_part(part: &Part, wanted: &Part) -> bool {
    part.vertex == wanted.vertex
        && part.before == wanted.before
        && same_ops(part.ops.as_slice(), wanted.ops.as_slice())
}

fn same_parts(parts: &[Part], wanted: &[Part]) -> bool {
    parts.len() == wanted.len()
        && parts
            .iter()
            .zip(wanted)
            .all(|(part, other)| same_part(part, other))
}

pub fn same_message(message: &Message, wanted: &Message) -> bool {
    message.request == wanted.request
        && message.stamp == wanted.stamp
        && message.low == wanted.low
        && same_parts(message.parts.as_slice(), wanted.parts.as_slice())
}
