//! A keeper whose rows stand in a database of SQLite. It tells no rows; its contracts say what the database is
//! handed, and what is answered of what it told.
#![tactic(auto)]

mod asking;
mod joins;
mod keeper;
mod making;
mod refusal;
mod rows;
mod texts;
mod values;

pub use keeper::SqliteKeeper;
