//! A run of a script, line by line: its columns, its cells, its requests, and what is printed.
#![tactic(auto)]

mod play;

pub use play::run::Play;
