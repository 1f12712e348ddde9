//! Two values that are made one beside the other.

ghost use Rattle.std.specs.Prelude.{◌≡◌, Ok, IfOk};

use okws_base::pairing::both;

/// Both values, where both were made. Where one wasn't, the other is let go here.
pub fn pair<A: Drop, B: Drop, E: Drop>(
    first: Result<A, E>,
    second: Result<B, E>,
) -> Result<(A, B), E>
    ensures { IfOk result (λ r. (first ≡ Ok r.0) × (second ≡ Ok r.1)) }
{
    match first {
        Ok(first) => both(first, second),
        Err(error) => Err(error),
    }
}
