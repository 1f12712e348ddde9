//! Objects in memory, which tell what they hold. The calls of an object are numbered from 0, and the
//! calls of listed numbers fail and are counted.

mod coming;
pub mod conn;
pub mod failing;
pub mod files;
pub mod link;
pub mod passing;
mod room;
pub mod sink;
pub mod source;
mod told;
