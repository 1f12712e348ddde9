//! A judge of what a server's run left, in plain Rust: it reads a record that was kept in memory, and tells which parts of
//! it are not legal, if any are not. Tests ask it; nothing is promised of it. What it finds legal is so by the
//! definitions; it knows the requests that clients in memory send, and no want of memory in launches, no connection
//! that was cut, and no order that was not obeyed: a record that has these it finds not legal.
#![tactic(auto)]

mod caused;
mod first;
pub mod judge;
mod launched;
mod lawful;
mod made;
mod missed;
mod pieced;
mod served;
mod tries;
