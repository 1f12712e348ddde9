//! The further objects of a run that is a server's: its network, its children, the operator's console,
//! its stores, its sinks and its gate, as one value; the trait of the worlds that have them beside the
//! files and the printing of every run; and such a world, whatever its objects are.
#![tactic(auto)]

pub mod equipment;
pub mod equipped;
