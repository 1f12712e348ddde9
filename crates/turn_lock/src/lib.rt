//! A lock that is taken in turns, round a value that keeps a journal: each seat of the lock knows what it
//! has seen of the journal, and the entries under its number in that are all that it made. And the live
//! board: for each service the greatest incarnation that has begun, and the count of connection numbers
//! drawn; its words change in single steps, and no call waits.
#![tactic(auto)]

pub mod board;
mod board_rule;
mod journaled;
mod queue;
mod row;
mod rule;
mod turn;

pub use journaled::Journaled;
pub use row::{end_row, join_row, make_row};
pub use turn::{Note, Seat, Turn};
