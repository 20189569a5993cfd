//! Why a report isn't right, in words.
//!
//! `wrong_words` says which part of the clause breaks that the judge of reports names, what is found and what is
//! expected. There is a file for each clause; what several of them speak of, as a chain of stamps and pairs or requests
//! that are done again, has a file of its own.
#![tactic(auto)]

mod chain_words;
mod clause_words;
mod commit_order;
mod conflict_clause;
mod listing_clause;
mod neighbours;
mod number_clause;
mod order_clause;
mod ordered_pairs;
mod pair_clause;
mod printed_reply;
mod reaching;
mod reasons;
mod refusal_clause;
mod replay_clause;
mod replaying;
mod reply_clause;
mod turned_pair;
mod wrong;

pub use wrong::wrong_words;
