//! Tests of whole runs of the program over a world in memory, of servers over doors, children, a console and sinks
//! in memory among them, and of the drill's parts. Not tested here: real sockets, files and programs, which the server's
//! own checks have, and want of memory.
#![tactic(auto)]

#[cfg(test)]
mod drills;
#[cfg(test)]
mod faults;
#[cfg(test)]
mod gate;
#[cfg(test)]
mod gated;
#[cfg(test)]
mod guestbook;
#[cfg(test)]
mod holding;
#[cfg(test)]
mod memory;
#[cfg(test)]
mod outside;
#[cfg(test)]
mod requests;
#[cfg(test)]
mod runs;
#[cfg(test)]
mod services;
#[cfg(test)]
mod shaky;
#[cfg(test)]
mod stored;
