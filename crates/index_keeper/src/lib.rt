//! A keeper that finds rows by their values: the rows of each table stand by their places of
//! insertion, and slots lead from a value in a column to the places of the rows that have it there. The answer of
//! a SELECT may be pinned: it holds its version of the rows, which a later write then leaves as it is.
#![tactic(auto)]

mod declared;
mod held;
mod joining;
mod keeper;
mod pinning;
mod rows;
mod shared;
mod statements;

pub use keeper::IndexKeeper;
pub use pinning::IndexPin;
pub use row_search::steps::Steps;
