//! The edge to clients: bytes of a connection become a request, or the status that refuses it,
//! in whatever pieces they come; and a response is written byte for byte. What was read and written
//! is kept, and so are the parts of a service's Reply, of which a response is made.
#![tactic(auto)]

mod fields;
pub mod kept;
mod looking;
mod places;
mod pulling;
pub mod reading;
pub mod reply;
pub mod writing;
