//! The locks, seats, launcher and rooms of a run, from when they are made until they are closed to its record.
#![tactic(auto)]

mod closing;
pub mod ended;
mod hiring;
pub mod kit;
pub mod launching;
mod meeting;
pub mod places;
pub mod room;
pub mod row;
pub mod whole;
