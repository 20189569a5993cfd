//! What holds of texts that are written and cut, and of the words in them.
ghost use Rattle.std.specs.Prelude.{◌≡◌, ◌<◌, ◌≤◌, ◌^◌, ◌++◌, ◌∷◌, [], ℕ, List, Some, IsTrue, not, map, length};
ghost use Rattle.std.specs.Char.{is_ascii_digit};
ghost use Rattle.std.specs.Fmt.{decimal};
ghost use Rattle.std.specs.List.{list_all};
ghost use Rattle.weave_data.specs.Names.{is_name, is_name_byte};
ghost use Rattle.weave_text.specs.Lines.{Bytes, Word, Line, joined_texts, joined_words, lines_text};
ghost use Rattle.weave_text.specs.Cutting.{lines_of, pieces_of, words_of, kept_lines, is_skipped, is_absent_from, is_clean, is_clean_line};
ghost use Rattle.weave_text.specs.Numbers.{number_of_word, number_up_to};

use crate::numbers::Numeral;

/// Clean lines come back from their text, even if more text follows.
pub fn clean_lines_come_back()
    ensures words { (line : Line) → IsTrue (is_clean_line line) → words_of (joined_words line) ≡ line }
    ensures lines { (lines : List Line) (text : Bytes) → IsTrue (list_all is_clean_line lines)
        → lines_of (lines_text lines ++ text) ≡ map joined_words lines ++ lines_of text }
    ensures kept { (lines : List Line) → IsTrue (list_all is_clean_line lines)
        → kept_lines (lines_of (lines_text lines)) ≡ lines }
    ensures followed { (lines : List Line) (text : Bytes) → IsTrue (list_all is_clean_line lines)
        → kept_lines (lines_of (lines_text lines ++ text)) ≡ lines ++ kept_lines (lines_of text) }
{}

/// Pieces that lack a byte come back from their text, joined by it.
pub fn joined_pieces_come_back()
    ensures { (byte : ℕ) (piece : Bytes) (pieces : List Bytes)
        → IsTrue (list_all (is_absent_from byte) (piece ∷ pieces))
        → pieces_of byte (joined_texts (byte ∷ []) (piece ∷ pieces)) ≡ piece ∷ pieces }
{}

/// What was cut into words is these words with one space between, and what was cut at a byte is the pieces with it
/// between.
pub fn cut_texts_are_joined()
    ensures words { (line : Bytes) → joined_words (words_of line) ≡ line }
    ensures pieces { (byte : ℕ) (text : Bytes) → joined_texts (byte ∷ []) (pieces_of byte text) ≡ text }
{}

/// The lines of a text that ends with a line feed are followed by those of what comes after it.
pub fn lines_follow_one_another()
    ensures { (text more : Bytes) → lines_of (text ++ 10 ∷ more) ≡ lines_of (text ++ 10 ∷ []) ++ lines_of more }
{}

/// A text has no more lines than bytes.
pub fn lines_are_few()
    ensures { (text : Bytes) → length (lines_of text) ≤ length text }
{}

/// Names and numbers of 64 bits are clean words, and no line that begins with a name is skipped.
pub fn words_are_clean()
    ensures name { (word : Word) → IsTrue (is_name word) → IsTrue (is_clean word) }
    ensures number { (n : ℕ) → n < 2 ^ 64 → IsTrue (is_clean (decimal n)) }
    ensures appended { (a b : Word) → IsTrue (is_clean a) → IsTrue (is_clean b) → IsTrue (is_clean (a ++ b)) }
    ensures kept { (word : Word) → IsTrue (is_name word) → IsTrue (not (is_skipped word)) }
{}

/// A name lacks each byte that is no name byte, and a printed number lacks each byte that is no digit.
pub fn words_lack_other_bytes()
    ensures name { (byte : ℕ) (word : Word) → IsTrue (not (is_name_byte byte)) → IsTrue (is_name word)
        → IsTrue (is_absent_from byte word) }
    ensures number { (byte n : ℕ) → IsTrue (not (is_ascii_digit byte)) → n < 2 ^ 64
        → IsTrue (is_absent_from byte (decimal n)) }
    ensures appended { (byte : ℕ) (a b : Bytes) → IsTrue (is_absent_from byte a) → IsTrue (is_absent_from byte b)
        → IsTrue (is_absent_from byte (a ++ b)) }
{}

/// A number of 64 bits has one word, its decimal digits.
pub fn numbers_come_back()
    ensures number { (n : ℕ) → n < 2 ^ 64 → number_of_word (decimal n) ≡ Some n }
    ensures word { (word : Word) (n : ℕ) → number_of_word word ≡ Some n → (word ≡ decimal n) × (n < 2 ^ 64) }
    ensures bounded { (most n : ℕ) → most < 2 ^ 64 → n ≤ most → number_up_to most (decimal n) ≡ Numeral.Number n }
    ensures bounded_word { (most : ℕ) (word : Word) (n : ℕ) → most < 2 ^ 64
        → number_up_to most word ≡ Numeral.Number n → (word ≡ decimal n) × (n ≤ most) }
{}
