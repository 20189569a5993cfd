//! A hand, and what it works for.

use crate::worker::Player;
use weaver_workers::Worker;

/// A worker of the first phase, or a hand that makes calls of its own.
#[derive(Drop)]
pub enum Seat {
    AtWork(Worker),
    Playing(Player),
}
