//! The launcher of a site: it has the services' children started, one incarnation after another, and keeps the
//! columns, the cells and the board in step with them by its crew.
#![tactic(auto)]

pub mod answer;
pub mod entered;
mod entries;
pub mod launcher;
mod launching;
pub mod named;
mod states;
mod steps;
mod tending;
