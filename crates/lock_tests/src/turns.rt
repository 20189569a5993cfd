//! What the workers of a phase do, turn by turn, one after another and side by side: how each client ends, and the logs
//! of what is left when the locks are closed.

#[cfg(test)]
mod bench;
#[cfg(test)]
mod pace;
#[cfg(test)]
mod play;
#[cfg(test)]
mod rows;
pub mod seat;
#[cfg(test)]
mod side_by_side;
