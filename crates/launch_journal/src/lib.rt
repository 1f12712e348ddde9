//! The launcher's journal: which incarnations were begun, which fell, and which services were given up.
//! By its type each entry fits those before it, whoever makes the calls.
#![tactic(auto)]

mod journal;
mod next;

pub use journal::LaunchJournal;
pub use next::Next;
