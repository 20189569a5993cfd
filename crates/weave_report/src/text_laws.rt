//! The laws of words and lines, in one.
ghost use Rattle.weave_report.specs.TextLaws.{TextLaws};

use weave_text::{
    clean_lines_come_back, cut_texts_are_joined, joined_pieces_come_back, numbers_come_back,
    words_are_clean, words_lack_other_bytes,
};

/// The laws of words and lines that the laws of reports rely on.
pub(crate) fn texts_keep_the_laws()
    ensures { TextLaws }
{
    clean_lines_come_back();
    cut_texts_are_joined();
    joined_pieces_come_back();
    numbers_come_back();
    words_are_clean();
    words_lack_other_bytes();
}
