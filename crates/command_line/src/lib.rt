//! The words of the command line: which command they are, by a grammar that stands in the
//! definitions, and what is told of words that are none.
#![tactic(auto)]

pub mod answer;
pub mod command;
pub mod laws;
mod looks;
mod numbers;
mod options;
mod parts;
