//! The small types that every layer speaks of: lists, journals, names, values, tokens, denial rules,
//! crash causes and limits. Contracts see lists of bytes, values and entries as lists.
#![tactic(auto)]

pub mod crash;
pub mod denial;
pub mod items;
pub mod journal;
pub mod limit;
pub mod name;
pub mod pairing;
pub mod told;
pub mod value;
