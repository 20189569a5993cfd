//! Programs, scripts and answers as plain data, and what a program answers on a plain graph.
#![tactic(auto)]

mod aim;
mod certificate;
pub mod laws;
mod limits;
mod listed;
mod parents;
mod passing;
mod path_search;
mod plain;
mod priced;
mod prices;
mod program;
mod row;
mod script;
mod search;
mod targets;
mod visits;

pub use aim::Aim;
pub use certificate::proves;
pub use passing::{Passing, passes};
pub use path_search::PathSearch;
pub use plain::{Asked, ask, ask_with_visits, visits_of};
pub use priced::{place_among, priced_answer};
pub use prices::{MOST_PRICE, price_of};
pub use program::{Answer, Bound, Filter, Program};
pub use row::Row;
pub use script::{Request, Script, Step, Work};
pub use search::Search;
pub use visits::Visits;
