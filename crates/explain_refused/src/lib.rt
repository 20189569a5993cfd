//! Why an input is refused, in words.
//!
//! The line and the cause are known. From the lines before it `refusal_words` finds out what may be there, and says
//! what is wrong in the line and how to mend it.
#![tactic(auto)]

mod answer_parts;
mod answer_words;
mod end_words;
mod exchanged;
mod field_words;
mod fields;
mod foreign_words;
mod form_words;
mod forms;
mod header_words;
mod likeness;
mod limit_words;
mod line_words;
mod meanings;
mod mended;
mod misformed;
mod misplaced;
mod open_gots;
mod other_script;
mod refusal;
mod request_words;
mod state_words;
mod unseen;

pub use refusal::refusal_words;
