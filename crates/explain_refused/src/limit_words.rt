//! Limits that are passed.

use explain_lines::say_line;
use std::alloc::AllocError;
use weave_script::Cause;
use weave_text::Text;

/// Says which limit a line passes.
pub(crate) fn limit_words(text: &mut Text, cause: Cause) -> Result<(), AllocError> {
    let form = match cause {
        Cause::Operations =>
            "It is the 65th operation of its transaction, and 64 are the most: divide the transaction.",
        Cause::Requests =>
            "It is the 10001st request of the script, and 10000 are the most: divide the script.",
        Cause::Programs =>
            "It is the 1001st program of the script, and 1000 are the most: divide the script.",
        Cause::Gets =>
            "It is the 1001st `get` of the script, and 1000 are the most: divide the script.",
        Cause::Vertices =>
            "With it the script names more than 10000 vertices (the names of operations and programs \
            at the places VERTEX), and 10000 are the most: divide the script.",
        _ => "It is the 100001st step of the script, and 100000 are the most.",
    };
    say_line(text, form, &[])
}
