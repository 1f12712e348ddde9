//! Scripts: the lines of a script, what each says under a configuration, and the text by which a
//! refused file is told. And the drill: the script that two numbers give, the tally of what is printed
//! of its run, and the summary of a tally.
#![tactic(auto)]

pub mod course;
pub mod directive;
pub mod drill_laws;
pub mod frames;
pub mod laws;
pub mod reading;
pub mod refusal;
pub mod rule;
pub mod script;
pub mod site;
pub mod summary;
pub mod tally;
pub mod text;
pub mod words;
