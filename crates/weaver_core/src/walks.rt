//! A program that was begun, with its walk.
use path_program::AnyProgram;
use vector_stamp::Stamp;

/// A program that was begun and is not finished.
#[derive(Drop)]
pub struct Running {
    pub request: u32,
    pub stamp: Stamp,
    /// It was fed the states that the program's visits read, and no others.
    pub walk: AnyProgram,
}
