//! Answers of rows that are found later.

ghost use Rattle.std.specs.Prelude.{◌≡◌, ◌<◌, ℕ, List, Bool, true, length, All};
ghost use Rattle.okws_base.specs.declared.value.Value.{Value as Field};
ghost use Rattle.okws_outer.specs.Keeping.{cell_of};

use okws_base::items::Items;
use okws_base::value::{Row, Value};

/// The answer of a SELECT on the tables as they were when it was pinned. None of its calls takes
/// memory or fails, and no later statement of the keeper changes what they give.
pub trait Pinned {
    /// How many columns the answer has.
    ghost width: { Self → ℕ };

    /// The rows of the answer.
    ghost rows: { Self → List (List Field) };

    /// That the answer was found.
    ghost found: { Self → Bool };

    /// Finds the answer, and tells how many rows it has.
    fn answer(&mut self) -> usize
        ensures count { result ≡ length (rows self.old) }
        ensures found { found self.new ≡ true }
        ensures rows { rows self.new ≡ rows self.old }
        ensures width { width self.new ≡ width self.old }
        ensures wide { All (λ row. length row ≡ width self.old) (rows self.old) };

    /// The value in a row and a column of the answer, once it was found.
    fn value(&self, row: usize, column: usize) -> &Value
        requires found { found self.now ≡ true }
        requires row { row < length (rows self.now) }
        requires column { column < width self.now }
        ensures { result.now ≡ cell_of (rows self.now) row column };

    /// How many columns the answer has.
    fn columns(&self) -> usize
        ensures { result ≡ width self.now };
}

/// An answer that was found when it was pinned: each row has as many values as there are columns.
#[derive(Drop)]
pub struct Listed {
    columns: usize,
    rows: Items<Row>,
    ghost wide: { All (λ row. length row ≡ columns) rows },
}

impl Listed {
    /// The answer of these rows.
    pub fn new(columns: usize, rows: Items<Row>) -> Self
        requires { All (λ row. length row ≡ columns) rows }
        ensures width { ⟦<Listed as Pinned>⟧.width result ≡ columns }
        ensures rows { ⟦<Listed as Pinned>⟧.rows result ≡ rows }
    {
        Listed { columns, rows }
    }
}

impl Pinned for Listed {
    ghost width = { λ p. p.columns };

    ghost rows = { λ p. p.rows };

    ghost found = { λ _. true };

    fn answer(&mut self) -> usize {
        self.rows.as_slice().len()
    }

    fn value(&self, row: usize, column: usize) -> &Value {
        let values = self.rows.as_slice()[row].as_slice();
        &values[column]
    }

    fn columns(&self) -> usize {
        self.columns
    }
}
