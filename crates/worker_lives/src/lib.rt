//! The way from a worker's steps, as its rounds say them, to the pieces of its list in the record that is left.
#![tactic(auto)]

pub mod ends;
pub mod laws;
pub mod leads;
pub mod lists;
pub mod talks;
