//! The objects of a server in memory: a network and its doors, children and their links, stores of
//! keepers, and sinks by their paths. They tell what they hold and what they were given back. The calls
//! of an object are numbered from 0, and the calls of listed numbers fail and are counted; an object
//! that is absent fails each.
#![tactic(auto)]

pub mod children;
pub mod door;
pub mod keeper;
mod noted;
pub mod sinks;
pub mod stores;
