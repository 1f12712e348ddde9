//! A run of a server, from its objects to its record.
#![tactic(auto)]

mod concluding;
mod leaving;
mod manning;
pub mod outfit;
mod outside;
mod post;
mod scene;
mod scope;
pub mod serve;
