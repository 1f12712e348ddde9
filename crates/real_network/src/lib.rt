//! The real network of a run, its doors and their connections. None tells what it holds; each counts the calls that
//! failed. A call that a signal interrupts is tried again. That doors listen, and how many of their calls failed, is
//! told on standard error.
#![tactic(auto)]

mod clock;
pub mod conn;
pub mod network;
mod notice;
mod pending;
pub mod trying;
