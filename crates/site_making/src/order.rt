//! Rows in the other order.

ghost use Rattle.std.specs.Prelude.{◌≡◌, reverse, vec_len};

/// The same items, the last first.
pub fn turned<T>(mut row: Vec<T>) -> Vec<T>
    ensures items { result.items ≡ reverse row.items }
    ensures len { vec_len result ≡ vec_len row }
{
    row.as_mut_slice().reverse();
    row
}
