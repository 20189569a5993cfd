ghost use Rattle.std.specs.Prelude.{◌≤◌};
ghost use Rattle.weave_data.specs.Limits.{most_requests};

use load_maker::make;
use rand_core::SeedableRng;
use rand_core::utils::NextWord;
use rand_pcg::Lcg64Xsh32;
use std::alloc::{AllocError, Global};
use std::process::Abort;
use weave_script::{print_script, read_script};

// The text of a generated script.
fn made(alloc: Global, seed: u64, size: u32) -> Result<Vec<u8>, AllocError>
    requires { (1 ≤ size) × (size ≤ most_requests) }
{
    let script = make(alloc, seed, size)?;
    print_script(alloc, &script)
}

// How many lines of a text begin with these bytes.
fn lines(text: &[u8], first: &[u8]) -> usize {
    text.split(|byte| *byte == b'\n')
        .filter(|line| line.starts_with(first))
        .count()
}

// The values are those of PCG's definition (XSH RR 64/32, seeded as `rand_core` 0.10 seeds it), computed apart.
const WORDS: [u32; 8] = [
    2442223337, 414063806, 2743600285, 3524868804, 2371632060, 1368306093, 671954468, 3804052768,
];

#[test]
fn words_of_a_seed(rt: HostRuntime) {
    let mut words = Lcg64Xsh32::seed_from_u64(7);
    for word in WORDS {
        assert!(rt; words.next_word() == word);
    }
}

// Computed apart from these words, by the rules of the generator.
#[test]
fn a_script_of_three_requests(rt: HostRuntime) {
    let want = "weaver 1 3 4\n\
        tx r0 5 2\n\
        get v20\n\
        end\n\
        tx r1 2 1\n\
        create v20\n\
        end\n\
        prog r2 2 1 reach v10 v32\n\
        steps\n\
        send 2\n\
        apply 3 0\n\
        nop 0 2\n\
        reply r2\n\
        send 1\n\
        reply r2\n\
        judge 0\n\
        apply 0 0\n\
        reply r1\n\
        deliver 2 0 17\n\
        nop 1 3\n\
        reply r2\n\
        ";
    let text = made(rt.alloc(), 7, 3).expect(&rt, "memory");
    assert!(rt; text.as_slice() == want.as_bytes());
}

// Of the lines of a text that many begin with these words.
fn has_lines(rt: &impl Abort, text: &[u8], rows: &[(&str, usize)]) {
    for row in rows {
        assert!(rt; lines(text, row.0.as_bytes()) == row.1);
    }
}

const LINES_OF_TWO_HUNDRED: [(&str, usize); 18] = [
    ("tx ", 179),
    ("prog ", 21),
    ("create ", 158),
    ("set ", 56),
    ("link ", 51),
    ("get ", 61),
    ("delete ", 0),
    ("tag ", 53),
    ("unlink ", 62),
    ("begin ", 160),
    ("judge ", 82),
    ("send ", 79),
    ("say ", 84),
    ("hear ", 86),
    ("nop ", 78),
    ("deliver ", 68),
    ("apply ", 80),
    ("reply ", 83),
];

#[test]
fn a_script_of_two_hundred_requests(rt: HostRuntime) {
    let text = made(rt.alloc(), 7, 200).expect(&rt, "memory");
    has_lines(&rt, text.as_slice(), &LINES_OF_TWO_HUNDRED);
}

const LINES_OF_THE_LARGEST: [(&str, usize); 4] = [
    ("tx ", 9_000),
    ("prog ", 1_000),
    ("get ", 1_000),
    ("delete ", 1_846),
];

// It meets the limits of 1,000 programs and 1,000 `get`, and is read again.
#[test]
fn the_largest_script(rt: HostRuntime) {
    let text = made(rt.alloc(), 7, 10_000).expect(&rt, "memory");
    has_lines(&rt, text.as_slice(), &LINES_OF_THE_LARGEST);
    assert!(rt; text.len() == 869_117 && read_script(rt.alloc(), text.as_slice()).is_ok());
}
