// How the 32 letters of names compare, eight at a time.
ghost use Rattle.std.specs.Prelude.{◌≡◌, ◌≤◌, ◌+◌, ◌*◌, take, drop, length};
ghost use Rattle.std.specs.Ordering.{nat_cmp};
ghost use Rattle.std.specs.Cmp.Lexicographic.{slice_cmp};
ghost use Rattle.std.specs.Slice.Scan.{big_endian};
ghost use Rattle.weave_data.specs.Limits.{most_letters};

use crate::limits::MOST_LETTERS;
use std::cmp::Ordering;

// The order of the letters: that of the first eight that differ, read as one number.
pub(crate) fn order(letters: &[u8; MOST_LETTERS], others: &[u8; MOST_LETTERS]) -> Ordering
    ensures { result ≡ slice_cmp nat_cmp letters.now others.now }
{
    for step in 0..4 {
        let one = word(letters, 8 * step);
        let other = word(others, 8 * step);
        if one != other {
            return one.cmp(&other);
        }
    }
    Ordering::Equal
}

// Eight letters as one number, the first the most significant.
fn word(letters: &[u8; MOST_LETTERS], at: usize) -> u64
    requires { at + 8 ≤ most_letters }
    ensures { result ≡ big_endian 0 (take 8 (drop at letters.now)) }
{
    u64::from_be_bytes([
        letters[at],
        letters[at + 1],
        letters[at + 2],
        letters[at + 3],
        letters[at + 4],
        letters[at + 5],
        letters[at + 6],
        letters[at + 7],
    ])
}
