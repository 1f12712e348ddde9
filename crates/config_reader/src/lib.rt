//! The configuration of a site: which file is one, what it says, and which line of another breaks
//! which rule first.
#![tactic(auto)]

mod declaring;
mod draft;
mod error;
mod grants;
mod keys;
mod paths;
mod plan;
mod reader;
mod tables;

pub use error::{ConfigError, ConfigRule, Refusal};
pub use reader::read;
