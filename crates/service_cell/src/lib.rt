//! The cell of a service: its link, its incarnation, and its transcript. A dialog is begun with a
//! request and goes on frame by frame, each answered by the columns; every way in which it can end is
//! an event of the cell.
#![tactic(auto)]

pub mod answer;
pub mod cell;
pub mod columns;
mod conversing;
mod course;
mod dialog;
pub mod ending;
mod exchange;
mod links;
pub mod memory;
mod telling;
pub mod tokens;
