//! The turns at a site's launcher, which stands behind a lock of its own. By its type the launcher between its
//! turns is what these tell: what was entered, what came up, and which children have ended.
#![tactic(auto)]

pub mod deed;
pub mod looking;
pub mod notes;
pub mod papers;
pub mod resting;
pub mod turns;
