//! The outside of a run: files, sources, sinks, links, connections and keepers of rows, each with a count of its
//! faults that never falls; the world that gives them to a run and gets them back; and objects in
//! memory that tell what they hold. What an object holds is told where it can tell it: objects in
//! memory do, real ones do not.
//!
//! Beside them, for a server: the network and its doors, where connections come in; children, the
//! programs that run beside the server, and their links; stores, which make keepers; sinks by their
//! paths; and the gate, at which tests hold it. What these objects were given back is told in order.
#![tactic(auto)]

pub mod child;
pub mod children;
pub mod conn;
pub mod door;
pub mod error;
pub mod files;
pub mod gate;
pub mod keeper;
pub mod memory;
pub mod network;
pub mod pinned;
pub mod printing;
pub mod reading;
pub mod sinks;
pub mod stores;
pub mod stream;
pub mod world;
