//! What a server's run left, as plain lines, for a judge that tests ask: what stands behind some lines, what the calls of
//! dialogs are answered there, and whether each dialog was answered so. Nothing is promised of it.
#![tactic(auto)]

pub mod answers;
pub mod case;
pub mod dialogs;
mod due;
mod events;
pub mod plain;
mod rows;
pub mod standing;
