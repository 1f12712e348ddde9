//! A call up to its entry.

use okws_base::denial::Rule;

/// What a call answers that was decided. An answer of rows is ready to be found, by `finish`, once
/// the turn is given back.
#[derive(Drop)]
pub enum Started<P> {
    Ready(P),
    Changed(u64),
    Duplicate,
    Denied(Rule),
    Failed,
}
