//! That all that a worker does, at a door and at the console, is pieces of its list, and that these answer the connections of a door.
#![tactic(auto)]

pub mod laws;
