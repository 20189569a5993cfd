//! Shortest chains of steps by which one request precedes another.

use crate::judge_rounds::{Aborted, round_replies, round_script};
use crate::judging::{letter, read};
use order_witness::{Link, chain_between, has_order, link_between};
use program_defs::Script;
use report_rules::{Pair, Report};
use std::alloc::Global;
use std::process::Abort;
use weave_data::Items;

// Four requests, of which the first and the last are of one session.
const SCRIPT: &str =
    "weaver 1 3 1\ntx t0 0 0\ncreate v\nend\ntx t1 1 1\nset v k x\nend\ntx t2 2 2\nset v k y\nend\ntx t3 0 0\nset v k z\nend\n";

const REPORT: &str =
    "report 1\ntx t0 0:0:1,0,0 committed 1\ntx t1 0:1:0,1,0 committed 2\ntx t2 0:2:0,0,1 committed 3\ntx t3 0:0:2,0,0 committed 4\nsettled v t0 t1\nsettled v t1 t2\nsettled v t2 t3\norder t0 t1 t2 t3\nend\n";

// A shortest chain by which the first precedes the second, if it does.
fn chain_of(
    rt: &impl Abort,
    alloc: Global,
    script: &Script,
    report: &Report,
    a: u32,
    b: u32,
) -> Option<Vec<usize>> {
    if !has_order(alloc, script, report).expect(rt, "memory") {
        panic!(rt; "no order");
    }
    chain_between(alloc, script, report, a, b).expect(rt, "memory")
}

fn is_chain(
    rt: &impl Abort,
    alloc: Global,
    both: &(Script, Report),
    a: u32,
    b: u32,
    wanted: Option<&[usize]>,
) -> bool {
    match (chain_of(rt, alloc, &both.0, &both.1, a, b), wanted) {
        (Some(chain), Some(wanted)) => chain.as_slice() == wanted,
        (None, None) => true,
        _ => false,
    }
}

#[test]
fn chains_are_shortest(rt: HostRuntime) {
    let alloc = rt.alloc();
    let both = read(&rt, alloc, SCRIPT, REPORT);
    // by their session, and not by the three pairs
    assert!(rt; is_chain(&rt, alloc, &both, 0, 3, Some(&[3])));
    assert!(rt; is_chain(&rt, alloc, &both, 0, 2, Some(&[1, 2])));
    assert!(rt; is_chain(&rt, alloc, &both, 3, 0, None));
    assert!(rt; link_between(&both.0, &both.1, 0, 3) == Some(Link::Session));
    assert!(rt; link_between(&both.0, &both.1, 1, 2) == Some(Link::Joined(1)));
    assert!(rt; link_between(&both.0, &both.1, 2, 0) == None);
}

const COUNT: u32 = 16;

// Requests at eight gatekeepers in two rounds, with pairs that these bits decide, each of a request and a later one.
fn report_of(rt: &impl Abort, alloc: Global, bits: u64) -> Report {
    let mut pairs = Items::new(alloc);
    let mut word = bits;
    for _ in 0..20 {
        word = word
            .wrapping_mul(6_364_136_223_846_793_005)
            .wrapping_add(1_442_695_040_888_963_407);
        let (earlier, later) = ((word >> 40) as u32 % COUNT, (word >> 50) as u32 % COUNT);
        if earlier < later {
            let pair = Pair {
                vertex: letter(rt, b'v'),
                earlier,
                later,
            };
            pairs.push(pair).expect(rt, "memory");
        }
    }
    Report {
        replies: round_replies(rt, alloc, COUNT, Aborted::None),
        pairs,
        order: Items::new(alloc),
        answers: Items::new(alloc),
    }
}

// Whether the first leads to the second in one step.
fn leads(report: &Report, a: usize, b: usize) -> bool {
    (a % 8 == b % 8 && a < b)
        || report.pairs.as_slice().iter().any(|pair| pair.earlier as usize == a
            && pair.later as usize == b)
}

// How many steps lead from a request to each other one, at least, if some do.
fn distances(rt: &impl Abort, alloc: Global, report: &Report, a: usize) -> Vec<Option<usize>> {
    let mut found: Vec<Option<usize>> = vec![in alloc; None; COUNT as usize].expect(rt, "memory");
    let mut level = Vec::new(alloc);
    level.push(a).expect(rt, "memory");
    for steps in 1..COUNT as usize {
        level = next_level(rt, alloc, report, steps, level.as_slice(), &mut found);
    }
    found
}

// Those to which this number of steps leads, and no fewer.
fn next_level(
    rt: &impl Abort,
    alloc: Global,
    report: &Report,
    steps: usize,
    level: &[usize],
    found: &mut Vec<Option<usize>>,
) -> Vec<usize> {
    let mut next = Vec::new(alloc);
    for from in level {
        for to in 0..COUNT as usize {
            if leads(report, *from, to) && put(found, to, steps) {
                next.push(to).expect(rt, "memory");
            }
        }
    }
    next
}

// Puts the number of steps, if there is none yet. Answers whether there was none.
fn put(found: &mut Vec<Option<usize>>, to: usize, steps: usize) -> bool {
    match found.get_mut(to) {
        Some(place) if place.is_none() => {
            *place = Some(steps);
            true
        }
        _ => false,
    }
}

// Whether each leads to the next, from the first one to the last.
fn is_walk(report: &Report, a: usize, chain: &[usize], b: usize) -> bool {
    let mut at = a;
    for next in chain {
        if !leads(report, at, *next) {
            return false;
        }
        at = *next;
    }
    at == b
}

// Whether the chains from a request are as long as a search by levels says.
fn are_shortest(rt: &impl Abort, alloc: Global, script: &Script, report: &Report, a: u32) -> bool {
    if !has_order(alloc, script, report).expect(rt, "memory") {
        panic!(rt; "no order");
    }
    let found = distances(rt, alloc, report, a as usize);
    for b in 0..COUNT {
        let chain = chain_between(alloc, script, report, a, b).expect(rt, "memory");
        let steps = found.as_slice().get(b as usize).copied().unwrap_or(None);
        if !is_that_long(report, a as usize, b as usize, &chain, steps) {
            return false;
        }
    }
    true
}

// Whether the chain has this number of steps; none if there is none.
fn is_that_long(
    report: &Report,
    a: usize,
    b: usize,
    chain: &Option<Vec<usize>>,
    steps: Option<usize>,
) -> bool {
    match (chain, steps) {
        (Some(chain), Some(steps)) => {
            chain.len() == steps && is_walk(report, a, chain.as_slice(), b)
        }
        (None, None) => true,
        _ => false,
    }
}

#[test]
fn chains_among_random_pairs(rt: HostRuntime) {
    let alloc = rt.alloc();
    let script = round_script(&rt, alloc, COUNT);
    for bits in 1..4 {
        let report = report_of(&rt, alloc, bits);
        for a in 0..COUNT {
            assert!(rt; are_shortest(&rt, alloc, &script, &report, a));
        }
    }
}
