//! The columns of a run behind locks that are taken in turns, with its board: many numbers have seats at
//! them at once. Each call of a number enters at most one event, under that number, with its own item
//! beside it.
#![tactic(auto)]

mod at_board;
mod at_log;
mod at_okd;
mod at_proxies;
mod at_pubd;
pub mod closing;
pub mod column_notes;
pub mod locks;
pub mod making;
pub mod named;
pub mod note;
pub mod noted_link;
pub mod pairing;
pub mod proxy_notes;
