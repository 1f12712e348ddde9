//! The log column: it decides which texts services may log, keeps the journal of them, and writes
//! the log's text out.
#![tactic(auto)]

mod daemon;
mod line;

pub use daemon::{LogDaemon, WriteOut};
