//! A Call of a service that was decided and entered in its proxy's turn, and the end of its answer
//! outside the turn: rows are found, tested against the longest frame, and copied.
#![tactic(auto)]

mod copying;
mod finishing;
mod started;

pub use copying::copy_rows;
pub use finishing::{Finished, finish};
pub use started::Started;
