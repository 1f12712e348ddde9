//! The server: a run of the program, from its words and the outside to its status and its record.
#![tactic(auto)]

mod checking;
mod counting;
mod drilling;
mod ending;
mod ground;
pub mod laws;
mod listing;
mod nowhere;
mod preparing;
mod script;
mod script_run;
mod server;
mod serving;
pub mod status;
mod top;

pub use top::{answer_no_memory, answer_read_fault, answer_words, okws};
