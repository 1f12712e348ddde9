//! The dispatcher's column: which incarnation of each service is up, and where each accepted request
//! goes. Every call decides and makes its one entry at once.
#![tactic(auto)]

mod okd;
mod owner;

pub use okd::Okd;
