//! Requests.
ghost use Rattle.std.specs.Prelude.{◌≡◌, ◌+◌, cond, IfOk};
ghost use Rattle.load_maker.specs.Generated.{request_numbered, drawn_request, work_of_kind};
ghost use Rattle.load_maker.specs.Words.{drawn_list, words_from};
ghost use Rattle.program_defs.specs.Works.{is_look};
ghost use Rattle.weave_script.specs.Limits.{gets_of_work};

use crate::draws::draw;
use crate::names::numbered;
use crate::ops::draw_ops;
use crate::programs::draw_program;
use program_defs::{Request, Work};
use rand_pcg::Lcg64Xsh32;
use std::alloc::{AllocError, Global};
use weave_data::Items;

/// The most programs of a script.
const MOST_PROGRAMS: u32 = weave_data::MOST_PROGRAMS as u32;

/// What the limits on a script count of the requests so far.
#[derive(Drop)]
struct Counts {
    programs: u32,
    gets: u32,
}

/// The requests `r0`, `r1` and so on.
pub fn draw_requests(
    alloc: Global,
    words: &mut Lcg64Xsh32,
    size: u32,
) -> Result<Items<Request>, AllocError>
    ensures { IfOk result (λ requests. (requests, words_from words.new)
        ≡ drawn_list drawn_request size (words_from words.old)) }
{
    let mut requests = Vec::with_capacity(alloc, size as usize)?;
    let mut counts = Counts {
        programs: 0,
        gets: 0,
    };
    for number in 0..size {
        requests.push(draw_request(alloc, words, &mut counts, number)?)?;
    }
    Ok(Items::from_vec(requests))
}

fn draw_request(
    alloc: Global,
    words: &mut Lcg64Xsh32,
    counts: &mut Counts,
    number: u32,
) -> Result<Request, AllocError>
    ensures drawn { IfOk result (λ request. (request, words_from words.new)
        ≡ request_numbered number counts.old.programs counts.old.gets (words_from words.old)) }
    ensures programs { IfOk result (λ request. counts.new.programs
        ≡ counts.old.programs + cond (is_look request.work) 1 0) }
    ensures gets { IfOk result (λ request. counts.new.gets ≡ counts.old.gets + gets_of_work request.work) }
{
    let session = draw(words, 6);
    let gate = draw(words, 3);
    let kind = draw(words, 10);
    Ok(Request {
        name: numbered(b'r', number),
        session,
        gate,
        work: draw_work(alloc, words, counts, kind)?,
    })
}

fn draw_work(
    alloc: Global,
    words: &mut Lcg64Xsh32,
    counts: &mut Counts,
    kind: u32,
) -> Result<Work, AllocError>
    ensures drawn { IfOk result (λ work. (work, words_from words.new)
        ≡ work_of_kind counts.old.programs counts.old.gets kind (words_from words.old)) }
    ensures programs { IfOk result (λ work. counts.new.programs ≡ counts.old.programs + cond (is_look work) 1 0) }
    ensures gets { IfOk result (λ work. counts.new.gets ≡ counts.old.gets + gets_of_work work) }
{
    if kind == 0 && counts.programs < MOST_PROGRAMS {
        counts.programs += 1;
        return Ok(Work::Look(draw_program(words)));
    }
    let count = 1 + draw(words, 4);
    Ok(Work::Change(draw_ops(alloc, words, &mut counts.gets, count)?))
}
