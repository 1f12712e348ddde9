//! The columns of a run, each as it stands behind its lock. A turn that takes one knows what its type
//! says: the site and the seed are the run's, what was launched names the launcher's number, each entry
//! fits those before it, and the counts are those of its entries. A turn of a seat enters at most one event.
#![tactic(auto)]

mod counts;
pub mod log;
pub mod log_turn;
pub mod named;
pub mod okd;
pub mod okd_turn;
pub mod proxy;
pub mod proxy_turn;
pub mod pubd;
pub mod pubd_turn;
