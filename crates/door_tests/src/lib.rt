//! Tests of a door's worker over doors in memory, and of the console over connections in memory. Not
//! tested here: real sockets, a real console, and many workers at once.
#![tactic(auto)]

#[cfg(test)]
mod console;
#[cfg(test)]
mod doors;
#[cfg(test)]
mod holding;
#[cfg(test)]
mod status;
