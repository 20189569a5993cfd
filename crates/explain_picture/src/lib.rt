//! A report drawn: one SVG.
//!
//! Each drawn request has a column of its own and a box in the lane of its gatekeeper, so a line straight up or down
//! from a box meets no other. Above the lanes there is a line for each session, with a branch to each of its requests;
//! below them there are the numbers of the order, and the pairs on tracks, no two of which overlap.
#![tactic(auto)]

mod boxes;
mod drawing;
mod drawn;
mod frame;
mod joined;
mod labels;
mod layout;
mod legend;
mod marking;
mod ports;
mod replied;
mod sheet;
mod title;

pub use drawing::picture;
pub use drawn::{Drawn, drawn_of};
pub use layout::{Corner, Plan, Span, corners, plan_of, tracks_of};
pub use marking::{Mark, Verdict};
pub use sheet::Window;
