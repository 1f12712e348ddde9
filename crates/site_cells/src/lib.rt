//! The cells of a site, each behind a lock that is taken in turns, and the seats of one number at all of
//! them: a cell behind its lock as a type that keeps what each turn must leave, the row of the locks, and
//! the names by which such types know their run.
#![tactic(auto)]

pub mod answer;
pub mod cell;
pub mod closing;
mod entered;
mod gate;
pub mod lock_names;
pub mod locks;
pub mod making;
pub mod named;
pub mod note;
pub mod seats;
mod turns;
