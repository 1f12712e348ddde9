//! Frames over a link: the next one that a service says, and sending one that it hears. A frame's
//! bytes come in whatever pieces the link gives, and no byte beyond a frame is taken.
#![tactic(auto)]

pub mod receiving;
pub mod sending;
