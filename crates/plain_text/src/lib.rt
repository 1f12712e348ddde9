//! Texts as bytes: the lines of a text, the words of a line, decimal numbers, hexadecimal digits and
//! escapes. All but what makes a list are pure functions of bytes.
#![tactic(auto)]

pub mod decimals;
pub mod hexadecimal;
pub mod lines;
pub mod parts;
pub mod words;
