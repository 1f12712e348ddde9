//! What a new configuration changes of what services may do, where it changes nothing else of a site.
#![tactic(auto)]

pub mod access;
mod change;
mod comparing;
pub mod laws;
mod same;
mod site;
mod statements;

pub use change::{ChangeError, read_change};
pub use comparing::{Difference, Regranted, regrant};
