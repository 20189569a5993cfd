//! What programs read and answer on a plain graph.
ghost use Rattle.std.specs.Prelude.{◌≤◌, IfOk, IfSome, length};
ghost use Rattle.weave_data.specs.Limits.{most_edges};

use crate::ended::{Ended, done, refused};
use graph_ops::{Graph, MOST_EDGES, Op, Record, TxFault};
use node_program::NodeProgram;
use path_program::AnyProgram;
use program_defs::{Answer, Asked, Program, Script, Visits, Work, ask_with_visits, visits_of};
use std::alloc::{AllocError, Global};
use weave_data::{Copied, Items, Name, NameMap};
use weave_report::{Reply, ReplyState, Report, print_report};
use weave_script::read_script;
use weave_text::Text;

/// After the script's transactions, one after another, what each program reads and answers: a line with its name and
/// the vertices, in byte order, and one with the answer. Or the line and the cause for which the script is refused.
pub fn visits(alloc: Global, input: &[u8]) -> Result<Ended, AllocError> {
    match read_script(alloc, input) {
        Ok(script) => visits_text(alloc, &script),
        Err(fault) => refused(alloc, fault),
    }
}

fn visits_text(alloc: Global, script: &Script) -> Result<Ended, AllocError> {
    let vertices = vertices_of(alloc, script)?;
    let mut text = Text::new(alloc);
    match graph_of(alloc, script) {
        Ok(graph) => tell_programs(alloc, script, &graph, &vertices, &mut text)?,
        Err(error) => return Err(error),
    }
    Ok(done(text.into_bytes()))
}

// The graph after the script's transactions; one that is refused changes nothing.
fn graph_of(alloc: Global, script: &Script) -> Result<Graph, AllocError> {
    let mut graph = Graph::new(alloc);
    for request in script.requests.as_slice() {
        if let Work::Change(ops) = &request.work {
            change(alloc, &mut graph, ops.as_slice())?;
        }
    }
    Ok(graph)
}

fn change(alloc: Global, graph: &mut Graph, ops: &[Op]) -> Result<(), AllocError> {
    if ops.len() > 1_000 {
        return Ok(());
    }
    match graph.run_tx(alloc, ops) {
        Err(TxFault::Memory) => Err(AllocError),
        _ => Ok(()),
    }
}

// The vertices that operations and programs name, in byte order, and the targets of edges.
fn vertices_of(alloc: Global, script: &Script) -> Result<NameMap<bool>, AllocError> {
    let mut vertices = NameMap::new(alloc);
    for request in script.requests.as_slice() {
        match &request.work {
            Work::Change(ops) => put_ops(&mut vertices, ops.as_slice())?,
            Work::Look(program) => put_program(&mut vertices, program)?,
        }
    }
    Ok(vertices)
}

fn put_ops(vertices: &mut NameMap<bool>, ops: &[Op]) -> Result<(), AllocError> {
    for op in ops {
        vertices.put(op.vertex(), true)?;
        if let Some(target) = op.target() {
            vertices.put(target, true)?;
        }
    }
    Ok(())
}

fn put_program(vertices: &mut NameMap<bool>, program: &Program) -> Result<(), AllocError> {
    match *program {
        Program::Show { v } => vertices.put(v, true),
        Program::Around { from, .. } => vertices.put(from, true),
        Program::Reach { from, to, .. }
        | Program::Path { from, to, .. }
        | Program::Price { from, to, .. } => {
            vertices.put(from, true)?;
            vertices.put(to, true)
        }
    }
}

fn tell_programs(
    alloc: Global,
    script: &Script,
    graph: &Graph,
    vertices: &NameMap<bool>,
    text: &mut Text,
) -> Result<(), AllocError> {
    for request in script.requests.as_slice() {
        if let Work::Look(program) = &request.work {
            let asked = asked_of(alloc, graph, program)?;
            tell_program(alloc, request.name, vertices, asked, text)?;
        }
    }
    Ok(())
}

// What a program answers and visits. A `price` is fed the graph.
fn asked_of(alloc: Global, graph: &Graph, program: &Program) -> Result<Asked, AllocError> {
    if !program.is_price() {
        return ask_with_visits(alloc, graph, program);
    }
    let visits = visits_of(alloc, graph, program)?;
    let answer = fed(alloc, graph, program)?;
    Ok(Asked { answer, visits })
}

fn fed(alloc: Global, graph: &Graph, program: &Program) -> Result<Answer, AllocError> {
    let mut walk = AnyProgram::new(alloc, program)?;
    feed(alloc, &mut walk, graph)?;
    walk.outcome(alloc)
}

// Feeds a program from a graph.
fn feed<P: NodeProgram>(alloc: Global, walk: &mut P, graph: &Graph) -> Result<(), AllocError> {
    for _ in 0..MOST_READS {
        let Some(v) = walk.next_vertex() else {
            break;
        };
        walk.ready()?;
        let state = state_of(alloc, graph, v)?;
        walk.see(state);
    }
    Ok(())
}

// The state of a vertex with as few edges as a vertex may have: those of graphs of cases have no more.
fn state_of(alloc: Global, graph: &Graph, v: Name) -> Result<Option<Record>, AllocError>
    ensures { IfOk result (λ state. IfSome state (λ found. length found.edges ≤ most_edges)) }
{
    let Some(found) = graph.find(v) else {
        return Ok(None);
    };
    if found.edges.len() > MOST_EDGES {
        return Ok(None);
    }
    let state = found.copy(alloc)?;
    Ok(Some(state))
}

fn tell_program(
    alloc: Global,
    name: Name,
    vertices: &NameMap<bool>,
    asked: Asked,
    text: &mut Text,
) -> Result<(), AllocError> {
    let Asked { answer, visits } = asked;
    tell_visits(name, vertices, &visits, text)?;
    match printed_answer(alloc, answer) {
        Ok(report) => tell_answer(report.as_slice(), text),
        Err(error) => Err(error),
    }
}

// The program's name and those of the vertices that it visits.
fn tell_visits(
    name: Name,
    vertices: &NameMap<bool>,
    visits: &Visits,
    text: &mut Text,
) -> Result<(), AllocError> {
    text.push(name.bytes())?;
    for (v, _) in vertices.as_slice() {
        if visits.has(*v) {
            text.word(v.bytes())?;
        }
    }
    text.end_line()
}

// The report of a program without name and stamp that answered so, whose line begins with `ANSWERED`.
fn printed_answer(alloc: Global, answer: Answer) -> Result<Vec<u8>, AllocError> {
    let report = report_of(alloc, one_reply(alloc, answer)?);
    print_report(alloc, &no_requests(alloc), &report)
}

fn one_reply(alloc: Global, answer: Answer) -> Result<Items<Reply>, AllocError> {
    let mut replies = Items::new(alloc);
    replies.push(Reply {
        request: 0,
        stamp: None,
        state: ReplyState::Finished(answer),
    })?;
    Ok(replies)
}

fn report_of(alloc: Global, replies: Items<Reply>) -> Report {
    Report {
        replies,
        pairs: Items::new(alloc),
        order: Items::new(alloc),
        answers: Items::new(alloc),
    }
}

// The most vertices that a program reads: cases have fewer.
const MOST_READS: u32 = 1_000_000;

const ANSWERED: &[u8] = b"tx  unbegun done";

fn no_requests(alloc: Global) -> Script {
    Script {
        gates: 1,
        shards: 1,
        requests: Items::new(alloc),
        phases: Items::new(alloc),
        steps: None,
    }
}

// The line of the answer, as the report's line of the reply has it.
fn tell_answer(report: &[u8], text: &mut Text) -> Result<(), AllocError> {
    for line in report.split(|byte| *byte == b'\n') {
        if let Some(words) = line.strip_prefix(ANSWERED) {
            text.push(b"answer")?;
            text.push(words)?;
            text.end_line()?;
        }
    }
    Ok(())
}
