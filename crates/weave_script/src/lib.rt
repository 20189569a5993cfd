//! Scripts as texts, in the whole grammar: read, and printed.
//!
//! `read_script` gives what `read_text` in `specs/ReadText.antt` says of the bytes: the script of which they are a
//! text, or the first line that can't be accepted and the first cause that holds in it. `print_script` writes a
//! script's one printed text. The laws in `laws.rt` tie the two: what is read is a text of that script, every text
//! of a script that isn't too long is read as it, no text is of two scripts, a printed script comes back, and the
//! fault that is reported is the first.
//!
//! `op_in_line` and `print_ops` do the same for the operations of a transaction alone, and `operations_come_back` ties
//! them.
//!
//! `read_check` gives what `check_text` in `specs/CheckText.antt` says of the bytes: a script and the report after
//! it, or the first fault of both. `check_laws.rt` has the same laws of these texts.
#![tactic(auto)]

mod check;
mod check_laws;
mod fault;
mod laws;
mod limits;
mod print;
mod read;

pub use check::read_check;
pub use check_laws::{
    check_faults_are_first, checks_are_of_one_report, checks_are_read, printed_checks_come_back,
    report_texts_follow_script_texts, script_names_are_distinct,
};
pub use fault::{Cause, ScriptFault};
pub use laws::{
    faults_are_first, heads_are_texts, operations_come_back, printed_scripts_come_back,
    scripts_are_small, texts_are_of_one_script, texts_are_read,
};
pub use limits::{MOST_STEPS, MOST_VERTICES};
pub use print::print_script;
pub use print::requests::print_ops;
pub use read::ops::op_in_line;
pub use read::read_script;
