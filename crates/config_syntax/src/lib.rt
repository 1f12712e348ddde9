//! The words of a configuration's lines: the directive of a line, the columns that a `table` line
//! writes, the literals of a `row` line, and numbers; and sets of byte strings, in which words are
//! found by their hash.
#![tactic(auto)]

pub mod byte_set;
pub mod column;
pub mod directive;
pub mod literal;
pub mod words;
