//! Long lists of steps.

use crate::top_calls::call;
use std::alloc::{AllocError, Global};
use std::sync::Wait;
use std::test::Fail;
use std::thread::Threads;
use weaver_top::{NoPace, Status};

// Puts a text behind another one.
fn add(text: &mut Vec<u8>, more: String) -> Result<(), AllocError> {
    text.extend_from_slice(more.as_str().as_bytes())
}

// The requests of fifty phases: a transaction that sets a property, and a program that shows it.
fn add_phase_requests(text: &mut Vec<u8>) -> Result<(), AllocError> {
    let alloc = *text.allocator();
    for n in 0..50u32 {
        let lines = format!(in alloc; "tx t{n} 0 0\nset v k x{n}\nend\nprog p{n} 1 0 show v\n")?;
        add(text, lines)?;
    }
    Ok(())
}

// The steps of fifty phases, with these lines at the end of each. The messages of its transaction and of its gatekeeper
// after it have the numbers 2n + 2 and 2n + 3.
fn add_phase_steps(text: &mut Vec<u8>, end: &str) -> Result<(), AllocError> {
    let alloc = *text.allocator();
    for n in 0..50u32 {
        let (first, second) = (2 * n + 2, 2 * n + 3);
        let lines = format!(in alloc;
            "begin t{n}\njudge 0\nsend 0\nreply t{n}\nbegin p{n}\nnop 0 0\ndeliver 0 0 {first}\ndeliver 0 0 {second}\napply 0 0\napply 0 0\nvisit p{n}\nreply p{n}\n{end}"
        )?;
        add(text, lines)?;
    }
    Ok(())
}

// A vertex that changes in fifty phases and is shown in each.
fn fifty_phases(alloc: Global, end: &str) -> Result<Vec<u8>, AllocError> {
    let mut text = Vec::from_slice(alloc, b"weaver 1 1 1\ntx t 0 0\ncreate v\nend\n")?;
    add_phase_requests(&mut text)?;
    text.extend_from_slice(
        b"steps\nbegin t\njudge 0\nsend 0\nreply t\ndeliver 0 0 1\napply 0 0\n",
    )?;
    add_phase_steps(&mut text, end)?;
    Ok(text)
}

// The lines of a report without the answers of steps.
fn without_answers(alloc: Global, report: &[u8]) -> Result<Vec<u8>, AllocError> {
    let mut lines = Vec::new(alloc);
    for line in report.split(|byte| *byte == b'\n') {
        if !line.starts_with(b"did ") {
            lines.extend_from_slice(line)?;
            lines.push(b'\n')?;
        }
    }
    Ok(lines)
}

// What `trace` writes of the fifty phases, without the answers of steps.
fn phases_traced<R: Threads + Wait + Sync>(
    rt: &R,
    alloc: Global,
    end: &str,
) -> Result<Vec<u8>, AllocError> {
    let script = fifty_phases(alloc, end)?;
    let (_status, report) = call(rt, alloc, "trace", script.as_slice(), &NoPace)?;
    without_answers(alloc, report.as_slice())
}

#[test]
fn collections_change_no_report(rt: HostRuntime) -> Result<(), Fail> {
    let plain = phases_traced(&rt, rt.alloc(), "")?;
    let collected = phases_traced(&rt, rt.alloc(), "collect 0\n")?;
    let plain = plain.as_slice();
    assert!(rt; plain == collected.as_slice());
    assert!(rt; plain.starts_with(b"report 1\ntx t 0:0:1 committed 1\n"));
    assert!(rt; plain.ends_with(b" t49 p49\nend\n\n"));
    Ok(())
}

// A thousand transactions: the session of each is one of eight, its gatekeeper one of three.
fn add_transactions(text: &mut Vec<u8>) -> Result<(), AllocError> {
    let alloc = *text.allocator();
    for n in 0..1000u32 {
        let (session, gate) = (n % 8, n % 3);
        let lines = format!(in alloc; "tx t{n} {session} {gate}\ncreate v{n}\nend\n")?;
        add(text, lines)?;
    }
    Ok(())
}

// Each of them is begun, judged, sent and replied.
fn add_transaction_steps(text: &mut Vec<u8>) -> Result<(), AllocError> {
    let alloc = *text.allocator();
    for n in 0..1000u32 {
        let gate = n % 3;
        let lines = format!(in alloc; "begin t{n}\njudge {gate}\nsend {gate}\nreply t{n}\n")?;
        add(text, lines)?;
    }
    Ok(())
}

#[test]
fn four_thousand_steps(rt: HostRuntime) -> Result<(), Fail> {
    let mut text = Vec::from_slice(rt.alloc(), b"weaver 1 3 1\n")?;
    add_transactions(&mut text)?;
    text.extend_from_slice(b"steps\n")?;
    add_transaction_steps(&mut text)?;
    let (status, report) = call(&rt, rt.alloc(), "trace", text.as_slice(), &NoPace)?;
    assert!(rt; status == Status::Done);
    assert!(rt;
        report
            .as_slice()
            .ends_with(b"did 3999 ok\ndid 4000 ok\nend\n")
    );
    Ok(())
}

// Three hundred programs: the session of each is one of eight.
fn add_programs(text: &mut Vec<u8>) -> Result<(), AllocError> {
    let alloc = *text.allocator();
    for n in 0..300u32 {
        let session = 1 + n % 8;
        let line = format!(in alloc; "prog p{n} {session} 0 show v\n")?;
        add(text, line)?;
    }
    Ok(())
}

// Each of them is begun, an empty message makes the shard ready for it, and it visits its vertex and is finished.
fn add_visits(text: &mut Vec<u8>) -> Result<(), AllocError> {
    let alloc = *text.allocator();
    for n in 0..300u32 {
        let message = n + 2;
        let lines = format!(in alloc;
            "begin p{n}\nnop 0 0\ndeliver 0 0 {message}\nvisit p{n}\napply 0 0\nreply p{n}\n"
        )?;
        add(text, lines)?;
    }
    Ok(())
}

// A transaction and three hundred programs, and 1,805 steps.
#[test]
fn three_hundred_programs(rt: HostRuntime) -> Result<(), Fail> {
    let mut text = Vec::from_slice(rt.alloc(), b"weaver 1 1 1\ntx t 0 0\ncreate v\nend\n")?;
    add_programs(&mut text)?;
    text.extend_from_slice(b"steps\nbegin t\njudge 0\nsend 0\ndeliver 0 0 1\napply 0 0\n")?;
    add_visits(&mut text)?;
    let (status, report) = call(&rt, rt.alloc(), "trace", text.as_slice(), &NoPace)?;
    assert!(rt; status == Status::Done);
    assert!(rt; report.as_slice().ends_with(b"did 1805 ok\nend\n"));
    Ok(())
}
