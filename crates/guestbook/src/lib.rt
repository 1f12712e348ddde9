//! The guestbook over a link: a service that shows entries and takes new ones.
#![tactic(auto)]

mod book;
mod frames;
pub mod guest;
mod listing;
mod request;
