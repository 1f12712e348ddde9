//! Frames, which a service and its server send one another, and their spellings in bytes.
#![tactic(auto)]

pub mod field;
pub mod frame;
pub mod framing;
pub mod kind;
pub mod laws;
mod list;
pub mod making;
mod part;
pub mod reading;
pub mod reply;
pub mod server;
mod server_fields;
pub mod service;
mod service_fields;
pub mod taker;
