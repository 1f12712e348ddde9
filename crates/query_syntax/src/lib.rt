//! The syntax of the query language: the tokens of a text, the form that they are, or where a text
//! breaks rule 1 or 2, and the canonical text of tokens.
#![tactic(auto)]

pub mod error;
mod front;
pub mod law;
pub mod lexer;
pub mod parser;
pub mod spelling;
pub mod syntax;
pub mod token;
