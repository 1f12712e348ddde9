//! Tests of the real objects, over the loopback address, real files and real children, and over streams
//! that fail as a system does. Not tested here: standard input and output, and want of memory.
#![tactic(auto)]

#[cfg(test)]
mod children;
#[cfg(test)]
mod files;
#[cfg(test)]
mod holding;
#[cfg(test)]
mod network;
#[cfg(test)]
mod stores;
#[cfg(test)]
mod streams;
