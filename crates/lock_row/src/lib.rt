//! A row of locks of one kind, whose machines may keep notes of each other's logs.
//!
//! `reserve_row` makes the locks, so that each has a name. `open_row` opens each of them for a machine whose frame can
//! list these names, and `note_row` makes the notes of one machine. In a hold `meet_others` compares those notes with
//! passes of the other locks: then the notes have seen what the passes have.
#![tactic(auto)]

mod bare;
mod dealing;
mod filling;
mod meeting;
mod noting;
mod opening;
mod reserving;

pub use bare::Bare;
pub use dealing::deal_hand;
pub use filling::fill_row;
pub use meeting::meet_others;
pub use noting::note_row;
pub use opening::open_row;
pub use reserving::reserve_row;
