//! The top call of `explain`: a command line, a source and a sink in, a status out.
//!
//! What is written begins with what `check` writes for the same input: it is asked for it. The words and the picture
//! after that are tested, and nothing is proved of them but that they are safe and end.
#![tactic(auto)]

mod answering;
mod check_line;
mod command;
mod explaining;

pub use command::Command;
pub use explaining::explain;
