//! What may come next of a service.

/// What may come next of a service, by what was entered of it.
#[derive(Clone, Copy)]
pub enum Next {
    /// Its next incarnation may begin.
    Begin,
    /// It has fallen too often, and may be given up.
    GiveUp,
    /// It was given up after so many tries, and nobody has asked for it since.
    Dead(u32),
    /// The last incarnation that it may have was begun.
    Spent,
}
