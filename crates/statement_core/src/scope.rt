//! The columns that the words of a statement may name.

ghost use Rattle.std.specs.Prelude.{◌≡◌, length, position};
ghost use Rattle.okws_base.specs.Value.{same_bytes};
ghost use Rattle.statement_core.specs.Joining.{qualified_name, is_dotted, joined_columns};
ghost use Rattle.statement_core.specs.Resolving.{column_number, kind_in, kind_at};

use crate::lookup::{kind_of_column, place_in_table, short_number};
use okws_base::value::Kind;
use okws_plan::configuration::Column;
use plain_text::parts::is_same;
use std::marker::Model;

/// The columns of a table by their names, or those of joined rows by qualified names: those of one
/// table, and behind them those of another.
#[derive(Drop)]
pub struct Scope<'a> {
    is_joined: bool,
    table: &'a [u8],
    columns: &'a [Column],
    second: &'a [u8],
    others: &'a [Column],
}

impl<'a> Model for Scope<'a> {
    ghost use Rattle.std.specs.Prelude.{List};
    ghost use Rattle.okws_plan.specs.declared.configuration.Column.{Column};
    ghost use Rattle.statement_core.specs.Joining.{scope_columns};

    ghost Value = { List Column };

    ghost view = { λ a. scope_columns a.is_joined a.table.now a.columns.now a.second.now a.others.now };
}

/// Whether these bytes are a `.` and this name.
fn is_behind_dot(column: &[u8], bytes: &[u8]) -> bool
    ensures { result ≡ is_dotted column.now bytes.now }
{
    match bytes {
        [] => false,
        [first, rest @ ..] => *first == b'.' && is_same(column, rest),
    }
}

/// Whether this is the qualified name of a column.
#[tactic(auto, using(crate::proofs::Qualified::unqualified, crate::proofs::Qualified::qualified))]
fn is_qualified(table: &[u8], column: &[u8], name: &[u8]) -> bool
    ensures { result ≡ same_bytes (qualified_name table.now column.now) name.now }
{
    match name.strip_prefix(table) {
        None => false,
        Some(rest) => is_behind_dot(column, rest),
    }
}

fn place_qualified(table: &[u8], columns: &[Column], name: &[u8]) -> Option<usize>
    ensures { result ≡ position (λ c. same_bytes (qualified_name table.now c.name) name.now) columns.now }
{
    columns
        .iter()
        .position(|column| is_qualified(table, column.name.as_slice(), name))
}

impl<'a> Scope<'a> {
    /// The columns of one table.
    pub fn plain(columns: &'a [Column]) -> Scope<'a>
        ensures { result ≡ columns.now }
    {
        Scope {
            is_joined: false,
            table: &[],
            columns,
            second: &[],
            others: &[],
        }
    }

    /// The columns of joined rows.
    pub fn joined(
        table: &'a [u8],
        columns: &'a [Column],
        second: &'a [u8],
        others: &'a [Column],
    ) -> Scope<'a>
        ensures { result ≡ joined_columns table.now columns.now second.now others.now }
    {
        Scope {
            is_joined: true,
            table,
            columns,
            second,
            others,
        }
    }

    /// How many there are.
    #[tactic(auto, using(crate::proofs::Qualified::long_joined))]
    pub fn len(&self) -> usize
        ensures { result ≡ length self.now }
    {
        if self.is_joined {
            self.columns.len() + self.others.len()
        } else {
            self.columns.len()
        }
    }

    #[tactic(auto, using(crate::proofs::Qualified::place_first, crate::proofs::Qualified::place_second))]
    fn place(&self, name: &[u8]) -> Option<usize>
        ensures { result ≡ position (λ c. same_bytes c.name name.now) self.now }
    {
        if !self.is_joined {
            return place_in_table(self.columns, name);
        }
        if let Some(place) = place_qualified(self.table, self.columns, name) {
            return Some(place);
        }
        match place_qualified(self.second, self.others, name) {
            None => None,
            Some(place) => Some(self.columns.len() + place),
        }
    }

    /// The number of the column with this name.
    pub fn number(&self, name: &[u8]) -> Option<u8>
        ensures { result ≡ column_number self.now name.now }
    {
        short_number(self.place(name))
    }

    #[tactic(auto, using(crate::proofs::Qualified::kind_first, crate::proofs::Qualified::kind_second))]
    fn kind_of(&self, place: usize) -> Option<Kind>
        ensures { result ≡ kind_at self.now place }
    {
        if self.is_joined && place >= self.columns.len() {
            kind_of_column(self.others, place - self.columns.len())
        } else {
            kind_of_column(self.columns, place)
        }
    }

    /// The kind of the column with this name.
    pub fn kind(&self, name: &[u8]) -> Option<Kind>
        ensures { result ≡ kind_in self.now name.now }
    {
        match self.number(name) {
            None => None,
            Some(number) => self.kind_of(number as usize),
        }
    }
}
