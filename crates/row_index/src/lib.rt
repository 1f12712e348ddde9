//! Rows and an index of them. Each row comes to the next place and stays there, until it is taken away;
//! the slots lead from a value in a column to the places of the rows that have it there. Rows are put
//! behind the others, changed and taken away with their slots, so that these stay an index of the rows.
#![tactic(auto)]

mod appending;
mod cells;
mod changing;
mod few;
mod placed;
mod places;
mod removing;
mod slot;
mod slots;

pub use appending::{append, append_new};
pub use cells::at;
pub use changing::{Change, apply};
pub use few::Few;
pub use placed::{PlacedRows, Stand};
pub use removing::remove_group;
pub use slot::{Group, Slot};
pub use slots::{Slots, group_of};
