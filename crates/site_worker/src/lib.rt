//! A worker of a site: its seats at the columns, at the cells and at the launcher, and what it does with
//! them: it handles the requests of a door, one connection after the other, or carries out an operator's
//! commands. Each turn that it takes is one of its own; it holds none when it waits for another.
#![tactic(auto)]

pub mod console;
pub mod controls;
pub mod door;
pub mod handling;
pub mod hands;
mod launching;
mod surveying;
pub mod worker;
