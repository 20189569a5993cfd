//! A transaction on a table of states, and how it is taken back.
ghost use Rattle.std.specs.Prelude.{◌≡◌, ◌++◌, ◌<◌, ◌^◌, is_some, length, Ok, Err, IfOk, OnOk, OnErr, IsSome};
ghost use Rattle.weave_data.specs.Pairs.{at_key};
ghost use Rattle.graph_ops.specs.Operations.{IfRefused, vertex_of};
ghost use Rattle.graph_ops.specs.PlainGraph.{lacks_target, on_graph, on_own_vertex, transaction, gots_of_answer};
ghost use Rattle.graph_ops.specs.Graphs.{IfTxRefused};
ghost use Rattle.graph_ops.specs.Slots.{states_of, Covers};
ghost use Rattle.graph_ops.specs.TakingBack.{step_back, graph_rewound, CanTakeBack};
ghost use Rattle.graph_ops.specs.Journals.{CanRewindIn, Keeps};

use crate::back::{Back, Change, take_back};
use crate::op::{Answered, Op, OpFault, Reason};
use crate::record::Record;
use crate::rows::do_op;
use crate::tx::{Got, TxFault};
use std::alloc::{AllocError, Global};
use std::collections::HashMap;
use weave_data::{Copied, Name};

/// States under names. A vertex that was changed once keeps its place, even if it is absent, so that its state can be
/// taken back without memory.
pub(crate) type Slots = HashMap<Name, Option<Record>>;

/// An operation that was done: its vertex, and what takes it back.
#[derive(Drop)]
pub(crate) struct Step {
    pub v: Name,
    pub back: Back,
}

// The state of a vertex.
fn read(alloc: Global, slots: &Slots, v: Name) -> Result<Option<Record>, AllocError>
    ensures { IfOk result (λ state. state ≡ states_of slots.now.entries v) }
{
    let Some(state) = slots.get(&v) else {
        return Ok(None);
    };
    state.copy(alloc)
}

// Gives a vertex a place.
fn make_place(slots: &mut Slots, v: Name) -> Result<(), AllocError>
    ensures there { OnOk result (IsSome (at_key v slots.new.entries)) }
    ensures others { Covers slots.new.entries slots.old.entries }
    ensures same { states_of slots.new.entries ≡ states_of slots.old.entries }
{
    if !slots.contains_key(&v) {
        slots.insert(v, None)?;
    }
    Ok(())
}

// Does an operation in its vertex's place, and looks at no other.
fn perform(alloc: Global, slots: &mut Slots, op: &Op) -> Result<Change, OpFault>
    requires { IsSome (at_key (vertex_of op.now) slots.old.entries) }
    ensures done { IfOk result (λ change. on_own_vertex op.now (states_of slots.old.entries)
        ≡ Ok (states_of slots.new.entries, change.answered)) }
    ensures back { IfOk result (λ change.
        Keeps (record { v = vertex_of op.now; back = change.back }) slots.new.entries slots.old.entries) }
    ensures refused { IfRefused result (λ reason. on_own_vertex op.now (states_of slots.old.entries) ≡ Err reason) }
    ensures unchanged { OnErr result (states_of slots.new.entries ≡ states_of slots.old.entries) }
    ensures others { Covers slots.new.entries slots.old.entries }
{
    let Some(slot) = slots.get_mut(&op.vertex()) else {
        unreachable!()
    };
    do_op(alloc, slot, op)
}

// Does an operation that may change its vertex, with no look at another, and notes how it is taken back.
fn note(
    alloc: Global,
    slots: &mut Slots,
    journal: &mut Vec<Step>,
    op: &Op,
) -> Result<Answered, OpFault>
    requires { CanRewindIn journal.old.items slots.old.entries }
    ensures done { IfOk result (λ answer. on_own_vertex op.now (states_of slots.old.entries)
        ≡ Ok (states_of slots.new.entries, answer)) }
    ensures refused { IfRefused result (λ reason. on_own_vertex op.now (states_of slots.old.entries) ≡ Err reason) }
    ensures kept { CanRewindIn journal.new.items slots.new.entries }
    ensures same { graph_rewound journal.new.items (states_of slots.new.entries)
        ≡ graph_rewound journal.old.items (states_of slots.old.entries) }
{
    let v = op.vertex();
    make_place(slots, v)?;
    journal.reserve(1)?;
    match perform(alloc, slots, op) {
        Ok(Change { answered, back }) => {
            journal.push_reserved(Step { v, back });
            Ok(answered)
        }
        Err(fault) => Err(fault),
    }
}

// Whether a vertex is there.
fn is_there(slots: &Slots, v: Name) -> bool
    ensures { result ≡ is_some (states_of slots.now.entries v) }
{
    match slots.get(&v) {
        None => false,
        Some(state) => state.is_some(),
    }
}

// Whether the vertex that an operation needs besides its own is absent, and its own isn't.
fn lacks_target(slots: &Slots, op: &Op) -> bool
    ensures { result ≡ lacks_target op.now (states_of slots.now.entries) }
{
    let Some(needed) = op.needs() else {
        return false;
    };
    !is_there(slots, needed) && is_there(slots, op.vertex())
}

// Does an operation; one that only reads has nothing to be taken back.
fn do_step(
    alloc: Global,
    slots: &mut Slots,
    journal: &mut Vec<Step>,
    op: &Op,
) -> Result<Answered, OpFault>
    requires { CanRewindIn journal.old.items slots.old.entries }
    ensures done { IfOk result (λ answer. on_graph op.now (states_of slots.old.entries)
        ≡ Ok (states_of slots.new.entries, answer)) }
    ensures refused { IfRefused result (λ reason. on_graph op.now (states_of slots.old.entries) ≡ Err reason) }
    ensures kept { CanRewindIn journal.new.items slots.new.entries }
    ensures same { graph_rewound journal.new.items (states_of slots.new.entries)
        ≡ graph_rewound journal.old.items (states_of slots.old.entries) }
{
    if let Op::Get { v } = *op {
        return Ok(Answered::Got(read(alloc, slots, v)?));
    }
    if lacks_target(slots, op) {
        return Err(OpFault::Refused(Reason::NoTarget));
    }
    note(alloc, slots, journal, op)
}

// Adds what an answer reports.
fn tell(gots: &mut Vec<Got>, op: u32, answer: Answered) -> Result<(), AllocError>
    ensures { OnOk result (gots.new.items ≡ gots.old.items ++ gots_of_answer op answer) }
{
    if let Answered::Got(state) = answer {
        gots.push(Got { op, state })?;
    }
    Ok(())
}

// Does the operations in order, up to the first that is refused.
fn run_all(
    alloc: Global,
    slots: &mut Slots,
    journal: &mut Vec<Step>,
    ops: &[Op],
) -> Result<Vec<Got>, TxFault>
    requires kept { CanRewindIn journal.old.items slots.old.entries }
    requires few { length ops.now < 2 ^ 32 }
    ensures done { IfOk result (λ gots. transaction ops.now (states_of slots.old.entries)
        ≡ Ok (record { graph = states_of slots.new.entries; gots = gots.items })) }
    ensures refused { IfTxRefused result (λ stopped. transaction ops.now (states_of slots.old.entries) ≡ Err stopped) }
    ensures kept { CanRewindIn journal.new.items slots.new.entries }
    ensures same { graph_rewound journal.new.items (states_of slots.new.entries)
        ≡ graph_rewound journal.old.items (states_of slots.old.entries) }
{
    let mut gots = Vec::new(alloc);
    for (i, op) in ops.iter().enumerate() {
        let number = i as u32 + 1;
        match do_step(alloc, slots, journal, op) {
            Ok(answer) => tell(&mut gots, number, answer)?,
            Err(OpFault::Refused(reason)) => return Err(TxFault::Refused { op: number, reason }),
            Err(OpFault::Memory) => return Err(TxFault::Memory),
        }
    }
    Ok(gots)
}

// Takes a step back.
fn undo_step(alloc: Global, slots: &mut Slots, step: Step)
    requires place { IsSome (at_key step.v slots.old.entries) }
    requires fits { CanTakeBack step.back (states_of slots.old.entries step.v) }
    ensures others { Covers slots.new.entries slots.old.entries }
    ensures after { states_of slots.new.entries ≡ step_back step (states_of slots.old.entries) }
{
    let Step { v, back } = step;
    let Some(slot) = slots.get_mut(&v) else {
        unreachable!()
    };
    take_back(alloc, slot, back);
}

/// Takes the steps back, the last one first. It takes no memory.
pub(crate) fn rewind(alloc: Global, slots: &mut Slots, mut journal: Vec<Step>)
    requires { CanRewindIn journal.items slots.old.entries }
    ensures { states_of slots.new.entries ≡ graph_rewound journal.items (states_of slots.old.entries) }
{
    while let Some(step) = journal.pop() {
        undo_step(alloc, slots, step);
    }
}

/// All operations in order, with what takes them back, or none.
pub(crate) fn run_or_rewind(
    alloc: Global,
    slots: &mut Slots,
    ops: &[Op],
) -> Result<(Vec<Got>, Vec<Step>), TxFault>
    requires { length ops.now < 2 ^ 32 }
    ensures done { IfOk result (λ passed. transaction ops.now (states_of slots.old.entries)
        ≡ Ok (record { graph = states_of slots.new.entries; gots = passed.0.items })) }
    ensures kept { IfOk result (λ passed. CanRewindIn passed.1.items slots.new.entries) }
    ensures back { IfOk result (λ passed. graph_rewound passed.1.items (states_of slots.new.entries)
        ≡ states_of slots.old.entries) }
    ensures refused { IfTxRefused result (λ stopped. transaction ops.now (states_of slots.old.entries) ≡ Err stopped) }
    ensures unchanged { OnErr result (states_of slots.new.entries ≡ states_of slots.old.entries) }
{
    let mut journal = Vec::new(alloc);
    match run_all(alloc, slots, &mut journal, ops) {
        Ok(gots) => Ok((gots, journal)),
        Err(fault) => {
            rewind(alloc, slots, journal);
            Err(fault)
        }
    }
}
