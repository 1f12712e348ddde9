//! The crew of a site's launcher: its seats at the columns, the cells and the board, by which alone launches
//! change them, with the list of what was done from them; and the children of the services, one of each at
//! most. The crew does one step of a launch at a time; when a step is due is the launcher's to say.
#![tactic(auto)]

pub mod answer;
mod cells;
mod columns;
pub mod crew;
mod notes;
pub mod recorder;
pub mod staff;
