//! Random reports with pairs, at one to eight gatekeepers. Both judges have to say the same of each.
//!
//! Each transaction reads the vertex v, which nobody makes, so it gives the same answer in every order. A stamp counts
//! its gatekeeper's requests up to its own, and those of the others up to some earlier request. The same words always
//! give the same reports.

use crate::choosing::{counted, line_of};
use crate::ended::Ended;
use std::alloc::{AllocError, Global};
use weave_text::{Text, number};

// A stream of numbers, each of which decides the next one.
#[derive(Drop)]
struct Dice {
    word: u64,
}

impl Dice {
    // A number below the bound, which is at least 1.
    fn below(&mut self, bound: u64) -> u64 {
        self.word = self
            .word
            .wrapping_mul(6_364_136_223_846_793_005)
            .wrapping_add(1_442_695_040_888_963_407);
        (self.word >> 32).saturating_mul(bound) >> 32
    }

    fn one_in(&mut self, count: u64) -> bool {
        self.below(count) == 0
    }
}

// What is drawn of a report before its requests.
#[derive(Clone, Copy)]
struct Plan {
    gates: u64,
    requests: u64,
    sessions: Sessions,
    // whether there are pairs that form a cycle
    has_cycle: bool,
}

#[derive(Clone, Copy, PartialEq, Eq)]
enum Sessions {
    OfGates,
    OneEach,
    // and the script has the last request first
    OneEachTurned,
    Drawn,
}

#[derive(Clone, Copy)]
struct Drawn {
    number: u64,
    session: u64,
    gate: u64,
    // how many of the first requests the stamp counts at other gatekeepers
    seen: u64,
    state: State,
}

#[derive(Clone, Copy, PartialEq, Eq)]
enum State {
    Unbegun,
    Begun,
    Conflict(u64),
    Committed,
}

/// What is said of random reports, as of those of `check each`. The input is their number, and the first number of the
/// stream; if the word `cycles` is there too, each has a cycle of pairs.
pub fn check_random(alloc: Global, input: &[u8]) -> Result<Ended, AllocError> {
    let words = str::from_utf8(input).unwrap_or("").trim();
    let mut parts = words.split(' ');
    let count = number_of(parts.next());
    let mut dice = Dice {
        word: number_of(parts.next()),
    };
    let has_cycle = parts.next() == Some("cycles");
    let mut lines = Vec::new(alloc);
    for i in 0..count {
        let plan = plan_of(&mut dice, i % 8 + 1, has_cycle);
        let text = text_of(alloc, &mut dice, plan)?;
        lines.push(line_of(alloc, text.as_slice())?)?;
    }
    lines.as_mut_slice().sort_unstable();
    counted(alloc, lines.as_slice())
}

fn number_of(word: Option<&str>) -> u64 {
    match word {
        Some(word) => number(word.as_bytes()).unwrap_or(0),
        None => 0,
    }
}

fn plan_of(dice: &mut Dice, gates: u64, has_cycle: bool) -> Plan {
    let sessions = match dice.below(4) {
        0 => Sessions::Drawn,
        1 => Sessions::OneEach,
        2 => Sessions::OneEachTurned,
        _ => Sessions::OfGates,
    };
    Plan {
        gates,
        requests: dice.below(7).saturating_add(3),
        sessions,
        has_cycle,
    }
}

// A script and its report.
fn text_of(alloc: Global, dice: &mut Dice, plan: Plan) -> Result<Vec<u8>, AllocError> {
    let requests = requests_of(alloc, dice, plan)?;
    let in_turn = in_turn(alloc, requests.as_slice(), plan)?;
    let mut text = Text::new(alloc);
    add_script(&mut text, in_turn.as_slice(), plan)?;
    add_replies(&mut text, in_turn.as_slice(), requests.as_slice(), plan)?;
    add_pairs(&mut text, dice, plan)?;
    add_order(alloc, &mut text, dice, requests.as_slice())?;
    Ok(text.into_bytes())
}

// The requests in the order in which they begin, and are committed.
fn requests_of(alloc: Global, dice: &mut Dice, plan: Plan) -> Result<Vec<Drawn>, AllocError> {
    let mut requests = Vec::new(alloc);
    for number in 0..plan.requests {
        let request = request_of(dice, plan, requests.as_slice(), number);
        requests.push(request)?;
    }
    Ok(requests)
}

fn request_of(dice: &mut Dice, plan: Plan, before: &[Drawn], number: u64) -> Drawn {
    let gate = dice.below(plan.gates);
    let session = match plan.sessions {
        Sessions::OfGates => gate,
        Sessions::Drawn => dice.below(4),
        _ => number,
    };
    Drawn {
        number,
        session,
        gate,
        seen: seen_of(dice, before, gate, number),
        state: state_of(dice, plan),
    }
}

// As many as the last request of its gatekeeper, or more; seldom none, although that may be fewer.
fn seen_of(dice: &mut Dice, before: &[Drawn], gate: u64, number: u64) -> u64 {
    if dice.one_in(64) {
        return 0;
    }
    let mut seen = 0;
    if dice.one_in(2) {
        seen = dice.below(number.saturating_add(1));
    }
    for earlier in before {
        if earlier.gate == gate && earlier.seen > seen {
            seen = earlier.seen;
        }
    }
    seen
}

fn state_of(dice: &mut Dice, plan: Plan) -> State {
    match dice.below(32) {
        0 => State::Unbegun,
        1 => State::Begun,
        2..=5 => State::Conflict(dice.below(plan.requests)),
        _ => State::Committed,
    }
}

// The requests in the script's order.
fn in_turn(alloc: Global, requests: &[Drawn], plan: Plan) -> Result<Vec<Drawn>, AllocError> {
    let mut turned = Vec::from_slice(alloc, requests)?;
    if plan.sessions == Sessions::OneEachTurned {
        turned.as_mut_slice().reverse();
    }
    Ok(turned)
}

fn add_script(text: &mut Text, requests: &[Drawn], plan: Plan) -> Result<(), AllocError> {
    text.push(b"weaver 1")?;
    text.number_word(plan.gates)?;
    text.push(b" 1\n")?;
    for request in requests {
        text.push(b"tx t")?;
        text.number(request.number)?;
        text.number_word(request.session)?;
        text.number_word(request.gate)?;
        text.push(b"\nget v\nend\n")?;
    }
    Ok(())
}

fn add_replies(
    text: &mut Text,
    requests: &[Drawn],
    begun: &[Drawn],
    plan: Plan,
) -> Result<(), AllocError> {
    text.push(b"report 1\n")?;
    for request in requests {
        text.push(b"tx t")?;
        text.number(request.number)?;
        if request.state == State::Unbegun {
            text.push(b" unbegun\n")?;
        } else {
            add_stamp(text, request, begun, plan)?;
            add_state(text, request, begun)?;
        }
    }
    Ok(())
}

fn add_stamp(
    text: &mut Text,
    request: &Drawn,
    begun: &[Drawn],
    plan: Plan,
) -> Result<(), AllocError> {
    text.push(b" 0:")?;
    text.number(request.gate)?;
    for gate in 0..plan.gates {
        text.push(if gate == 0 { b":" } else { b"," })?;
        let own = gate == request.gate;
        let first = if own {
            request.number.saturating_add(1)
        } else {
            request.seen
        };
        text.number(count_of(begun, gate, first))?;
    }
    Ok(())
}

// How many of the first requests are at this gatekeeper.
fn count_of(requests: &[Drawn], gate: u64, first: u64) -> u64 {
    let mut count: u64 = 0;
    for request in requests {
        if request.gate == gate && request.number < first {
            count = count.saturating_add(1);
        }
    }
    count
}

fn add_state(text: &mut Text, request: &Drawn, begun: &[Drawn]) -> Result<(), AllocError> {
    match request.state {
        State::Conflict(newer) => {
            text.push(b" conflict v t")?;
            text.number(newer)?;
            text.end_line()
        }
        State::Committed => {
            text.push(b" committed")?;
            text.number_word(commit_number(begun, request.number))?;
            text.push(b"\ngot 1 absent\n")
        }
        _ => text.push(b" begun\n"),
    }
}

fn commit_number(requests: &[Drawn], number: u64) -> u64 {
    let mut count: u64 = 0;
    for request in requests {
        if request.state == State::Committed && request.number <= number {
            count = count.saturating_add(1);
        }
    }
    count
}

// Some pairs at random, most of which have the request first that began first; and a cycle, if there is one.
fn add_pairs(text: &mut Text, dice: &mut Dice, plan: Plan) -> Result<(), AllocError> {
    if plan.has_cycle {
        add_cycle(text, dice, plan)?;
    }
    for _ in 0..dice.below(7) {
        let (a, b) = (dice.below(plan.requests), dice.below(plan.requests));
        if a < b || dice.one_in(8) {
            add_pair(text, a, b)?;
        }
    }
    Ok(())
}

fn add_cycle(text: &mut Text, dice: &mut Dice, plan: Plan) -> Result<(), AllocError> {
    let first = dice.below(plan.requests);
    let mut last = first;
    for _ in 0..dice.below(6).saturating_add(1) {
        let next = dice.below(plan.requests);
        add_pair(text, last, next)?;
        last = next;
    }
    add_pair(text, last, first)
}

fn add_pair(text: &mut Text, earlier: u64, later: u64) -> Result<(), AllocError> {
    text.push(b"settled v t")?;
    text.number(earlier)?;
    text.push(b" t")?;
    text.number(later)?;
    text.end_line()
}

// The committed requests, as they began or with some exchanged; seldom one is left out.
fn add_order(
    alloc: Global,
    text: &mut Text,
    dice: &mut Dice,
    requests: &[Drawn],
) -> Result<(), AllocError> {
    let reach = dice
        .below(3)
        .saturating_mul(dice.below(16))
        .saturating_add(1);
    let mut order = Vec::new(alloc);
    for request in requests {
        let place = request
            .number
            .saturating_mul(4)
            .saturating_add(dice.below(reach));
        if request.state == State::Committed && !dice.one_in(100) {
            order.push((place, request.number))?;
        }
    }
    order.as_mut_slice().sort_unstable();
    text.push(b"order")?;
    for (_, number) in order.as_slice() {
        text.push(b" t")?;
        text.number(*number)?;
    }
    text.push(b"\nend\n")
}
