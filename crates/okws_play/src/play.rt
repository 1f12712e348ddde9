//! A run of a script, in one thread, through the same columns and cells as the server's.

mod accepting;
mod booting;
mod cells;
mod dialogs;
mod entering;
mod judging;
mod launching;
mod lines;
mod playing;
mod request;
mod responses;
pub mod run;
