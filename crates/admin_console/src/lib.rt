//! The console of a server: an operator's commands, read one at a time, carried out, and answered by a
//! line each. What the commands steer is a trait, `Controls`.
#![tactic(auto)]

pub mod answer;
pub mod controls;
pub mod laws;
pub mod order;
pub mod reader;
pub mod rule;
pub mod step;
