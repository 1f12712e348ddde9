//! What is found in all rows.

ghost use Rattle.std.specs.Prelude.{◌≡◌, IfOk};
ghost use Rattle.std.specs.List.{list_any};
ghost use Rattle.std.specs.Map.{keys_of};
ghost use Rattle.okws_base.specs.Value.{value_eq};
ghost use Rattle.okws_plan.specs.Meaning.{nothing, at_column};
ghost use Rattle.row_index.specs.Stands.{standing};
ghost use Rattle.row_search.specs.Places.{passes_at, rows_of};

use okws_base::value::Value;
use row_index::{Stand, at};
use std::alloc::{AllocError, Global};

/// The places of all rows that stand, ascending.
pub fn all_places(alloc: Global, stands: &[Stand]) -> Result<Vec<u64>, AllocError>
    ensures { IfOk result (λ v. v.items ≡ keys_of (standing stands.now)) }
{
    let mut places = Vec::new(alloc);
    for stand in stands {
        match stand.row.as_ref() {
            None => {}
            Some(_) => places.push(stand.place)?,
        }
    }
    Ok(places)
}

/// Whether a row that stands has the value in a column; `other` stands for one that isn't there.
pub fn any_has(stands: &[Stand], column: usize, value: &Value, other: &Value) -> bool
    requires { other.now ≡ nothing }
    ensures { result ≡ list_any (λ row. value_eq (at_column row column) value.now) (rows_of (standing stands.now)) }
{
    any_stands(stands, column, value, other)
}

fn any_stands(stands: &[Stand], column: usize, value: &Value, other: &Value) -> bool
    requires { other.now ≡ nothing }
    ensures { result ≡ list_any (λ s. passes_at (λ row. value_eq (at_column row column) value.now) s.row) stands.now }
{
    stands
        .iter()
        .any(|stand| stand_has(stand, column, value, other))
}

fn stand_has(stand: &Stand, column: usize, value: &Value, other: &Value) -> bool
    requires { other.now ≡ nothing }
    ensures { result ≡ passes_at (λ row. value_eq (at_column row column) value.now) stand.now.row }
{
    match stand.row.as_ref() {
        None => false,
        Some(row) => at(row.as_slice(), column, other).same(value),
    }
}
