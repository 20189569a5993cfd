use program_defs::{Script, Step};
use std::alloc::{AllocError, Global};
use std::process::Abort;
use weave_data::{Items, MOST_BYTES};
use weave_script::{ScriptFault, print_script, read_script};
use weave_text::Text;

// The line and the cause of a refused text.
fn refusal_of(alloc: Global, text: &[u8]) -> (u32, &'static [u8]) {
    match read_script(alloc, text) {
        Ok(_) => (0, b"read"),
        Err(ScriptFault::Refused { line, cause }) => (line, cause.text()),
        Err(ScriptFault::Memory) => (0, b"no memory"),
    }
}

// A start, then `count` times these pieces with the time's number between them, and an end.
fn many(
    alloc: Global,
    start: &str,
    count: u64,
    pieces: &[&str],
    end: &str,
) -> Result<Vec<u8>, AllocError> {
    let mut text = Text::new(alloc);
    text.push(start.as_bytes())?;
    for n in 0..count {
        push_pieces(&mut text, n, pieces)?;
    }
    text.push(end.as_bytes())?;
    Ok(text.into_bytes())
}

fn push_pieces(text: &mut Text, n: u64, pieces: &[&str]) -> Result<(), AllocError> {
    let Some((first, rest)) = pieces.split_first() else {
        return Ok(());
    };
    text.push(first.as_bytes())?;
    for piece in rest {
        text.number(n)?;
        text.push(piece.as_bytes())?;
    }
    Ok(())
}

const HEADER: &str = "weaver 1 1 1\n";

const STEPS: &str = "weaver 1 1 1\nsteps\n";

const TRANSACTION: &[&str] = &["tx t", " 0 0\nend\n"];

const PROGRAM: &[&str] = &["prog p", " 0 0 show v\n"];

const TWENTY_GETS: &[&str] = &[
    "tx t",
    " 0 0\nget v\nget v\nget v\nget v\nget v\nget v\nget v\nget v\nget v\nget v\nget v\nget v\nget v\nget v\nget v\nget v\nget v\nget v\nget v\nget v\nend\n",
];

const TWO_VERTICES: &[&str] = &["tx t", " 0 0\nlink v", " e w", "\nend\n"];

const STEP: &[&str] = &["say 0\n#", "\n"];

const CREATE_A_KNOWN: &str = "tx u 0 0\ncreate v0\nend\n";

const CREATE_ANOTHER: &str = "tx u 0 0\ncreate x\nend\n";

const GET: &str = "tx u 0 0\nget v\nend\n";

// A start, a number of pieces, an end, and the line and the cause of the refusal.
type Limit = (
    &'static str,
    u64,
    &'static [&'static str],
    &'static str,
    u32,
    &'static str,
);

// Each limit, and one past it, but that of the operations of one transaction.
const LIMITS: [Limit; 10] = [
    (HEADER, 1_000, PROGRAM, "", 0, "read"),
    (HEADER, 1_001, PROGRAM, "", 1_002, "programs"),
    (HEADER, 50, TWENTY_GETS, CREATE_ANOTHER, 0, "read"),
    (HEADER, 50, TWENTY_GETS, GET, 1_103, "gets"),
    (HEADER, 10_000, TRANSACTION, "", 0, "read"),
    (HEADER, 10_001, TRANSACTION, "", 20_002, "requests"),
    (HEADER, 5_000, TWO_VERTICES, CREATE_A_KNOWN, 0, "read"),
    (
        HEADER,
        5_000,
        TWO_VERTICES,
        CREATE_ANOTHER,
        15_003,
        "vertices",
    ),
    (STEPS, 100_000, STEP, "", 0, "read"),
    (STEPS, 100_001, STEP, "", 200_003, "steps"),
];

// The text is refused at this line for this cause.
fn refuses(rt: &impl Abort, alloc: Global, limit: &Limit) {
    let text = many(alloc, limit.0, limit.1, limit.2, limit.3).expect(rt, "memory");
    assert!(rt; refusal_of(alloc, &text) == (limit.4, limit.5.as_bytes()));
}

#[test]
fn limits(rt: HostRuntime) {
    for limit in &LIMITS {
        refuses(&rt, rt.alloc(), limit);
    }
}

// What a comment of that many bytes is refused for.
fn refusal_of_bytes(rt: &impl Abort, alloc: Global, count: usize) -> (u32, &'static [u8]) {
    let text = vec![in alloc; b'#'; count].expect(rt, "memory");
    refusal_of(alloc, &text)
}

#[test]
fn the_longest_input(rt: HostRuntime) {
    assert!(rt; refusal_of_bytes(&rt, rt.alloc(), MOST_BYTES) == (2, b"header".as_slice()));
    let too_long = refusal_of_bytes(&rt, rt.alloc(), MOST_BYTES + 1);
    assert!(rt; too_long == (0, b"too_long".as_slice()));
}

// A phase after more requests than there are, and a step of a request that the script lacks, whose name is empty.
fn change(rt: &impl Abort, alloc: Global, script: &mut Script) {
    script.phases.push(9).expect(rt, "memory");
    let mut steps = Items::new(alloc);
    steps.push(Step::Reply { request: 6 }).expect(rt, "memory");
    script.steps = Some(steps);
}

const CHANGED: &str = "weaver 1 1 1\nprog p 0 0 show v\nphase\nsteps\nreply \n";

#[test]
fn a_script_that_no_text_gives(rt: HostRuntime) {
    let alloc = rt.alloc();
    let text = b"weaver 1 1 1\nprog p 0 0 show v\n";
    let mut script = read_script(alloc, text).expect(&rt, "a script");
    change(&rt, alloc, &mut script);
    let printed = print_script(alloc, &script).expect(&rt, "memory");
    assert!(rt; printed.as_slice() == CHANGED.as_bytes());
}
