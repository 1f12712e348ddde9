//! The real stores of a run: rows in files of SQLite. None tells what it holds; each counts the calls that failed.
#![tactic(auto)]

pub mod pause;
pub mod stores;
