//! The judge of reports: whether a report is right for its script; and the printed order.
//!
//! `judge_report` answers `Yes` exactly for right reports, and otherwise the first clause in order that breaks, with
//! the first place at which it does. `order_of` gives the report's one printed order; `has_order` says whether its
//! conditions hold. The transactions of the script have fewer than 2^32 operations, which `has_numbered_operations`
//! says; each finished program is asked once.
//!
//! A clause that speaks of each two requests is judged by a sort and a few walks, which take time by the report's
//! length and a logarithm, whether the report is right or wrong. Replies and refusals are compared with their
//! neighbours, and with all others only at the first place where that doesn't show that the clause holds. For order one
//! walk marks what precedes the requests listed so far, with cycles or without. For conflicts there is no cycle, by the
//! clauses before, so what precedes each request is counted along an order of turns.
//!
//! The printed order needs no precedence of two given requests: of each gatekeeper's begun requests, in the order of
//! their stamps, only the first one left can be next. It is free if no other such stamp is before its own and the
//! earlier ends of its pairs had their turns.
#![tactic(auto)]

mod answers;
mod bits;
mod by_number;
mod by_session;
mod chain;
mod conflicts;
mod heads;
mod judge;
mod listing;
mod lookups;
mod numbers;
mod order;
mod pairs;
mod printed_order;
mod refusal_marks;
mod refusals;
mod replay;
mod replies;
mod rising;
mod rows;
mod tops;
mod trial;
mod turns;
mod walk;

pub use chain::{Link, chain_between, link_between};
pub use judge::{Judged, has_numbered_operations, judge_report};
pub use printed_order::{has_order, order_of};
pub use report_rules::Clause;
