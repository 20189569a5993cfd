//! The text of a script of 200 transactions and 20 programs of four sessions, on seven vertices in common.

use std::alloc::{AllocError, Global};
use std::process::Abort;
use weave_text::Text;

/// How many requests it has. Each eleventh is a program.
pub const REQUESTS: u32 = 220;

/// The text. It has two gatekeepers and two shards.
pub fn many_requests(rt: &impl Abort, alloc: Global) -> Vec<u8> {
    let mut text = Text::new(alloc);
    text.push(b"weaver 1 2 2\n").expect(rt, "memory");
    for request in 0..REQUESTS {
        write_request(&mut text, request).expect(rt, "memory");
    }
    text.into_bytes()
}

fn write_request(text: &mut Text, request: u32) -> Result<(), AllocError> {
    if request % 11 == 10 {
        return write_program(text, request);
    }
    write_transaction(text, request)
}

// The request's name, session and gatekeeper.
fn write_head(text: &mut Text, kind: &[u8], request: u32) -> Result<(), AllocError> {
    text.push(kind)?;
    text.push(b" r")?;
    text.number(u64::from(request))?;
    text.number_word(u64::from(request % 4))?;
    text.number_word(u64::from(request / 4 % 2))
}

// A vertex.
fn write_vertex(text: &mut Text, vertex: u32) -> Result<(), AllocError> {
    text.push(b" v")?;
    text.number(u64::from(vertex % 7))
}

fn write_program(text: &mut Text, request: u32) -> Result<(), AllocError> {
    write_head(text, b"prog", request)?;
    let kind = request / 11 % 5;
    let from = request % 7;
    match kind {
        0 => write_search(text, b" show", from, b"\n"),
        1 => write_search(text, b" around", from, b" 3\n"),
        2 => write_pair(text, b" reach", from, b"\n"),
        3 => write_pair(text, b" path", from, b" 5\n"),
        _ => write_pair(text, b" reach", from, b" where k x\n"),
    }
}

fn write_search(text: &mut Text, word: &[u8], from: u32, end: &[u8]) -> Result<(), AllocError> {
    text.push(word)?;
    write_vertex(text, from)?;
    text.push(end)
}

fn write_pair(text: &mut Text, word: &[u8], from: u32, end: &[u8]) -> Result<(), AllocError> {
    text.push(word)?;
    write_vertex(text, from)?;
    write_vertex(text, from.wrapping_add(3))?;
    text.push(end)
}

fn write_transaction(text: &mut Text, request: u32) -> Result<(), AllocError> {
    write_head(text, b"tx", request)?;
    text.push(b"\n")?;
    let vertex = request % 7;
    match request % 9 {
        0 => write_vertex_line(text, b"create", vertex, b"\n")?,
        1 => write_linked(text, vertex)?,
        2 => write_vertex_line(text, b"set", vertex, b" k x\n")?,
        3 => write_read(text, vertex)?,
        4 => write_tagged(text, vertex)?,
        5 => write_vertex_line(text, b"unset", vertex, b" k\n")?,
        6 => write_linked(text, vertex.wrapping_add(2))?,
        7 => write_vertex_line(text, b"unlink", vertex, b" e\n")?,
        _ => write_rare(text, request, vertex)?,
    }
    text.push(b"end\n")
}

// Each third one deletes a vertex, and the others create two.
fn write_rare(text: &mut Text, request: u32, vertex: u32) -> Result<(), AllocError> {
    if request / 9 % 3 == 2 {
        return write_vertex_line(text, b"delete", vertex, b"\n");
    }
    write_vertex_line(text, b"create", vertex, b"\n")?;
    write_vertex_line(text, b"create", vertex.wrapping_add(1), b"\n")
}

fn write_vertex_line(
    text: &mut Text,
    word: &[u8],
    vertex: u32,
    end: &[u8],
) -> Result<(), AllocError> {
    text.push(word)?;
    write_vertex(text, vertex)?;
    text.push(end)
}

// It links a vertex to two others.
fn write_linked(text: &mut Text, vertex: u32) -> Result<(), AllocError> {
    text.push(b"link")?;
    write_vertex(text, vertex)?;
    text.push(b" e")?;
    write_vertex(text, vertex.wrapping_add(1))?;
    text.push(b"\nlink")?;
    write_vertex(text, vertex)?;
    text.push(b" f")?;
    write_vertex(text, vertex.wrapping_add(4))?;
    text.push(b"\n")
}

// It reads two vertices, and changes the first.
fn write_read(text: &mut Text, vertex: u32) -> Result<(), AllocError> {
    write_vertex_line(text, b"get", vertex, b"\n")?;
    write_vertex_line(text, b"get", vertex.wrapping_add(3), b"\n")?;
    write_vertex_line(text, b"set", vertex, b" k y\n")
}

fn write_tagged(text: &mut Text, vertex: u32) -> Result<(), AllocError> {
    text.push(b"tag")?;
    write_vertex(text, vertex)?;
    text.push(b" e k x\n")
}
