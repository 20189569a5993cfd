//! Words that are nearly the same.

use explain_lines::first_word;

/// The first word of the forms that is nearly this word, but isn't it.
pub(crate) fn nearest_word(forms: &[&'static [u8]], word: &[u8]) -> Option<&'static [u8]> {
    for form in forms {
        if is_like(word, first_word(form)) {
            return Some(first_word(form));
        }
    }
    None
}

/// Whether two words differ by capital letters alone, or by one letter that is missing, added or another one, or by two
/// neighbours that are exchanged.
pub(crate) fn is_like(word: &[u8], other: &[u8]) -> bool {
    if word.eq_ignore_ascii_case(other) {
        return true;
    }
    let lesser = word.len().min(other.len());
    let greater = word.len().max(other.len());
    let same = same_start(word, other).saturating_add(same_end(word, other));
    if lesser < 3 || greater > lesser.saturating_add(1) {
        return false;
    }
    if lesser == greater {
        return same.saturating_add(2) >= lesser;
    }
    same >= lesser
}

// How many bytes the starts of two words have in common.
fn same_start(word: &[u8], other: &[u8]) -> usize {
    let mut count: usize = 0;
    for (a, b) in word.iter().zip(other) {
        if *a != *b {
            return count;
        }
        count = count.saturating_add(1);
    }
    count
}

// How many bytes their ends have in common.
fn same_end(word: &[u8], other: &[u8]) -> usize {
    let mut count: usize = 0;
    for (a, b) in word.iter().rev().zip(other.iter().rev()) {
        if *a != *b {
            return count;
        }
        count = count.saturating_add(1);
    }
    count
}
