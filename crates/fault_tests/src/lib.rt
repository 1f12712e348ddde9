//! Tests of calls that fail, of rooms that are too small, and of how many puts a frame or a response takes, over links
//! and connections in memory. Not tested here: what is read from them, which the cases of texts have.
#![tactic(auto)]

#[cfg(test)]
mod conns;
#[cfg(test)]
mod holding;
#[cfg(test)]
mod links;
#[cfg(test)]
mod puts;
