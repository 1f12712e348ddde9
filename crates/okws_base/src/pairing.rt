//! Two values that are made one behind the other.

ghost use Rattle.std.specs.Prelude.{◌≡◌, Ok, IfOk};

/// Both values, where the second was made. Where it wasn't, the first is let go here, once for all
/// callers, and not at an exit of theirs.
pub fn both<A: Drop, B, E>(first: A, second: Result<B, E>) -> Result<(A, B), E>
    ensures { IfOk result (λ r. (r.0 ≡ first) × (second ≡ Ok r.1)) }
{
    match second {
        Ok(second) => Ok((first, second)),
        Err(error) => Err(error),
    }
}
