//! What a site is and does, as plain types: the configuration, its statements, the events of all
//! journals and the lines of scripts; what a configuration grants, and what a statement means on rows.
#![tactic(auto)]

pub mod configuration;
pub mod event;
pub mod meaning;
pub mod naming;
pub mod script;
pub mod statement;
