//! Copies of the rows of an answer.

ghost use Rattle.std.specs.Prelude.{◌≡◌, ◌<◌, [], true, length, slice_index_or, IfOk, All};

use okws_base::items::{Exact, Items};
use okws_base::value::Row;
use okws_outer::pinned::Pinned;
use std::alloc::{AllocError, Global};

// A copy of a row of an answer that was found.
fn copy_row<P: Pinned>(alloc: Global, pin: &P, row: usize) -> Result<Row, AllocError>
    requires found { P.found pin.now ≡ true }
    requires row { row < length (P.rows pin.now) }
    requires wide { length (slice_index_or (P.rows pin.now) row []) ≡ P.width pin.now }
    ensures { IfOk result (λ r. r ≡ slice_index_or (P.rows pin.now) row []) }
{
    let columns = pin.columns();
    let mut values = Vec::with_capacity(alloc, columns)?;
    for column in 0..columns {
        values.push(pin.value(row, column).copy(alloc)?)?;
    }
    Ok(Items::of(values))
}

/// A copy of the rows, as many as there are, of an answer that was found.
pub fn copy_rows<P: Pinned>(alloc: Global, pin: &P, count: usize) -> Result<Items<Row>, AllocError>
    requires found { P.found pin.now ≡ true }
    requires count { count ≡ length (P.rows pin.now) }
    requires wide { All (λ row. length row ≡ P.width pin.now) (P.rows pin.now) }
    ensures { IfOk result (λ rows. rows ≡ P.rows pin.now) }
{
    let mut rows = Vec::with_capacity(alloc, count)?;
    for row in 0..count {
        rows.push(copy_row(alloc, pin, row)?)?;
    }
    Ok(Items::of(rows))
}
