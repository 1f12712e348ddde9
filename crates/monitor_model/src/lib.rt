//! The reference monitor: what each entry of a journal is answered, looking back along the entries
//! before it; what a dialog hears and says; what a run leaves, and when that is lawful; what the lines
//! of a script do. Of programs there are none here: the definitions stand with their laws and types.
#![tactic(auto)]

pub mod due;
pub mod laws;
pub mod record;
pub mod sent;
pub mod small_runs;
pub mod ties;
pub mod verdict;
pub mod worked;
