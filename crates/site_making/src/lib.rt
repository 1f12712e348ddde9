//! Making the columns and the cells of a run, with a lock for each.
#![tactic(auto)]

mod cells;
mod columns;
pub mod making;
pub mod order;
