//! The canonical text of a statement, from which it is compiled again.
#![tactic(auto)]

mod canonical;
mod join_tokens;
mod law;

pub use canonical::text_of;
pub use law::statements_compile_again;
