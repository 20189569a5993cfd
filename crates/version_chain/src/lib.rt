//! The versions of a vertex: the state after each of its updates, with the stamp of the update's transaction
//! (multi-version shards of Weaver, PVLDB 9(11) 2016).
//!
//! A `Chain` takes updates in the order in which they are applied, and takes the newest one back without memory.
//! `collect` drops old versions. `view_at` gives the state that a program sees, by the stamps and any judge of events.
//! Contracts see how many versions were dropped, and of each one that is kept its stamp and the state after it; no
//! whole state is kept, but the parts that updates wrote (`version_parts`), and `parts` counts them.
#![tactic(auto)]

mod chain;
mod collection;
pub mod laws;
mod version;
mod view;

pub use chain::Chain;
pub use version::Version;
pub use view::View;
