//! Finding the rows of a table that meet conditions, by an index where one leads there: the hits, what a SELECT
//! answers from them, and the changes that an UPDATE or a DELETE makes at their places.
#![tactic(auto)]

pub mod answering;
pub mod editing;
pub mod finding;
pub mod scanning;
pub mod steps;
