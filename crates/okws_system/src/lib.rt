//! The real objects of a run: files, streams, pipes and children of the system. None tells
//! what it holds; each counts the calls that failed. A call that a signal interrupts is tried again. What the one who runs
//! the server should see is told on standard error, a line each.
#![tactic(auto)]

pub mod children;
mod command;
pub mod console;
pub mod files;
pub mod link;
mod notice;
pub mod output;
pub mod pipes;
mod process;
pub mod sinks;
pub mod standard;
pub mod system;
