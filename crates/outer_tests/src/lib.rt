//! Tests of the objects of a server in memory. Not tested here: real sockets, pipes and children.
#![tactic(auto)]

#[cfg(test)]
mod children;
#[cfg(test)]
mod holding;
#[cfg(test)]
mod objects;
#[cfg(test)]
mod streams;
