//! A script and a report that were read, and the lines that say them.
//!
//! `Case` looks up what they say of a request. `quote` and its fellows write the lines of the input that say it,
//! `stamp_words` how two stamps compare, and `unticked_words` which of them no run writes.
#![tactic(auto)]

mod case;
mod quotes;
mod stamps;

pub use case::{Case, item_at, number_in};
pub use quotes::{quote, quote_reply, quote_request};
pub use stamps::{is_unticked, stamp_words, unticked_words};
