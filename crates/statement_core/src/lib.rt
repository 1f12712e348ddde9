//! The query language: which statement a text stands for, or where it breaks which rule.
#![tactic(auto)]

mod action;
mod compiler;
mod earliest;
mod excess;
mod join_judge;
mod join_words;
mod judge;
mod law;
mod lookup;
mod resolver;
mod scope;

pub use compiler::compile;
pub use law::compiled_statements_keep_rules;
pub use lookup::columns_at;
pub use query_syntax::error::{CompileError, Refusal, TextRule};
pub use query_syntax::law::{forms_are_read_again, tokens_are_read_again};
pub use query_syntax::lexer::tokens_of;
pub use query_syntax::token::{Fixed, Placed, Token};
