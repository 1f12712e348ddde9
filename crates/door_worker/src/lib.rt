//! The worker of a door: it takes connections one after the other, reads the one request of each, has it
//! handled, writes the one response, and finishes the connection, whatever happened on it. What stands
//! behind the door is a trait, `Handler`.
#![tactic(auto)]

pub mod answer;
pub mod handler;
pub mod serving;
