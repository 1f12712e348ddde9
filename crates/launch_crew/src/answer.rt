//! What the crew's calls answer.

/// Why a child was not started and booted.
#[derive(Clone, Copy)]
pub enum Missed {
    /// The start failed, or the link did; the fault was counted.
    Failed,
    /// Memory was refused.
    NoMemory,
}
