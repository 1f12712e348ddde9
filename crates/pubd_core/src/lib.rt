//! The template column: which incarnation of each service may have templates, the editions that were
//! published, and what is due to each incarnation. Every call decides and makes its one entry at once.
#![tactic(auto)]

mod kept;
mod pubd;
mod readers;

pub use pubd::Pubd;
