//! Rows in memory beside a keeper that keeps them where they outlive a run: they are read from it as a
//! run begins, each write goes to it first, and all else is answered from memory.
//! And a site whose rows stand so: its stores are opened as a run begins, and given back at its end.
#![tactic(auto)]

mod giving;
pub mod loading;
mod opening;
mod sound;
mod stored;

pub use giving::give_back;
pub use opening::{StoredSite, open_site};
pub use stored::StoredKeeper;
