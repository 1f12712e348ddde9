//! What the calls at a site's cells answer.

use service_cell::answer::Booting;

/// What `boot` answers.
pub struct Launched<L> {
    /// Whether the incarnation was booted.
    pub booting: Booting<L>,
    /// The link of the incarnation before, if it was still there.
    pub left: Option<L>,
}
