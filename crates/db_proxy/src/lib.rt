//! The column of a database proxy: it decides what a service may open and call, keeps the journal of
//! it, and has a keeper run what is allowed. What lists rows may be started within a turn and finished after it.
#![tactic(auto)]

mod granting;
mod proxy;
mod starting;

pub use proxy::Proxy;
