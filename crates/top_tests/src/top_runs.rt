//! Long scripts that are run on threads: `check` says of each report that it is right.

use crate::top_calls::is_run;
use load_maker::make;
use std::alloc::{AllocError, Global};
use std::test::Fail;
use weave_script::print_script;

// Vertices that all sessions share.
const SHARED: u32 = 40;

// A request of one of 64 sessions at one of eight gatekeepers. Of ten, seven change two vertices, one changes a vertex
// and its edge, and two are programs.
fn request_lines(alloc: Global, number: u32) -> Result<String, AllocError> {
    let (session, gate) = (number.wrapping_mul(7) % 64, number.wrapping_mul(5) % 8);
    let (v, w) = (
        number.wrapping_mul(13) % SHARED,
        number.wrapping_mul(29) % SHARED,
    );
    match number % 10 {
        7 => format!(in alloc;
            "tx t{number} {session} {gate}\nget v{v}\nlink v{v} e{number} v{w}\ntag v{v} e{number} k x\nend\n"
        ),
        8 => format!(in alloc; "prog p{number} {session} {gate} around v{v} 2\n"),
        9 => format!(in alloc; "prog p{number} {session} {gate} reach v{v} v{w}\n"),
        _ => format!(in alloc;
            "tx t{number} {session} {gate}\nset v{v} k x{number}\nset v{w} k y{number}\nend\n"
        ),
    }
}

// 64 vertices, as many as a transaction can make, at one of eight gatekeepers, for sixteen shards. The sessions share
// the first ones.
fn shared_vertices(alloc: Global) -> Result<Vec<u8>, AllocError> {
    let mut text = Vec::from_slice(alloc, b"weaver 1 8 16\ntx t 0 0\n")?;
    for v in 0..64u32 {
        let line = format!(in alloc; "create v{v}\n")?;
        text.extend_from_slice(line.as_str().as_bytes())?;
    }
    text.extend_from_slice(b"end\n")?;
    Ok(text)
}

// Requests with numbers that follow each other.
fn add_requests(text: &mut Vec<u8>, first: u32, count: u32) -> Result<(), AllocError> {
    for place in 0..count {
        let lines = request_lines(*text.allocator(), first.wrapping_add(place))?;
        text.extend_from_slice(lines.as_str().as_bytes())?;
    }
    Ok(())
}

// The vertices, and then phases of that many requests each.
fn in_phases(alloc: Global, phases: u32, each: u32) -> Result<Vec<u8>, AllocError> {
    let mut text = shared_vertices(alloc)?;
    for phase in 0..phases {
        text.extend_from_slice(b"phase\n")?;
        add_requests(&mut text, phase.wrapping_mul(each), each)?;
    }
    Ok(text)
}

#[test]
fn a_thousand_requests_in_fifty_phases(rt: HostRuntime) -> Result<(), Fail> {
    let script = in_phases(rt.alloc(), 50, 20)?;
    assert!(rt; is_run(&rt, rt.alloc(), "run", script.as_slice())?);
    Ok(())
}

// Three requests of each session, all in one phase.
#[test]
fn all_sixty_four_sessions_at_once(rt: HostRuntime) -> Result<(), Fail> {
    let script = in_phases(rt.alloc(), 1, 192)?;
    assert!(rt; is_run(&rt, rt.alloc(), "run", script.as_slice())?);
    Ok(())
}

// A vertex is changed a thousand times, and once more after a thousand and one `phase` lines.
fn changes_and_phases(alloc: Global) -> Result<Vec<u8>, AllocError> {
    let mut text = Vec::from_slice(alloc, b"weaver 1 1 1\ntx t 0 0\ncreate v\nend\n")?;
    for number in 0..1_000u32 {
        let lines = format!(in alloc; "tx t{number} 0 0\nset v k x{number}\nend\n")?;
        text.extend_from_slice(lines.as_str().as_bytes())?;
    }
    for _ in 0..1_001u32 {
        text.extend_from_slice(b"phase\n")?;
    }
    text.extend_from_slice(b"tx last 0 0\nget v\nset v k x\nend\nprog p 1 0 show v\n")?;
    Ok(text)
}

// Neither the 1,001st commit of a vertex nor the 1,001st `phase` line ends a run as out of memory.
#[test]
fn a_thousand_changes_and_phases(rt: HostRuntime) -> Result<(), Fail> {
    let script = changes_and_phases(rt.alloc())?;
    assert!(rt; is_run(&rt, rt.alloc(), "run", script.as_slice())?);
    assert!(rt; is_run(&rt, rt.alloc(), "drive", script.as_slice())?);
    Ok(())
}

#[test]
fn a_generated_script_is_run(rt: HostRuntime) -> Result<(), Fail> {
    let script = make(rt.alloc(), 7, 200)?;
    let text = print_script(rt.alloc(), &script)?;
    assert!(rt; is_run(&rt, rt.alloc(), "run", text.as_slice())?);
    Ok(())
}
