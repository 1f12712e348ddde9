//! What it means that a configuration gives what services may do.

ghost use Rattle.config_diff.specs.Exactness.{IsExact};

/// A new configuration gives what services may do by it exactly where it declares the same site. Where
/// it was read from a lawful file, this names only what the site declares.
pub fn regrants_are_exact()
    ensures { IsExact }
{}
