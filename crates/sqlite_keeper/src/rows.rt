//! Rows that the database shows, read as values of the listed columns.

ghost use Rattle.std.specs.Prelude.{◌≡◌, ◌<◌, ◌++◌, All, IfOk, IfErr, map, length, slice_get, List};
ghost use Rattle.sqlite.specs.Order.{column};
ghost use Rattle.okws_base.specs.declared.value.Value.{Value as Field};
ghost use Rattle.sqlite_keeper.specs.Values.{stored, kinds_of, kind_in, IsOfKind, AreOfKinds};

use crate::refusal::reason;
use okws_base::items::Items;
use okws_base::value::{Kind, Row, Text, Value};
use okws_outer::keeper::RunError;
use okws_plan::configuration::Column;
use sqlite::Row as Shown;
use std::alloc::{AllocError, Global};

fn kind_at(columns: &[Column], at: usize) -> Kind
    ensures { result ≡ kind_in (slice_get columns.now at) }
{
    match columns.get(at) {
        Some(column) => column.kind,
        None => Kind::Int,
    }
}

fn kind_of_side(columns: &[Column], others: &[Column], at: usize) -> Kind
    ensures { result ≡ kind_in (slice_get (columns.now ++ others.now) at) }
{
    if at < columns.len() {
        kind_at(columns, at)
    } else {
        kind_at(others, at - columns.len())
    }
}

/// The kinds of the listed columns, which are numbered on through the others.
pub(crate) fn kinds_of(
    alloc: Global,
    columns: &[Column],
    others: &[Column],
    listed: &[u8],
) -> Result<Vec<Kind>, AllocError>
    ensures { IfOk result (λ v. v.items ≡ kinds_of (columns.now ++ others.now) listed.now) }
{
    let mut kinds = Vec::new(alloc);
    for at in listed {
        kinds.push(kind_of_side(columns, others, *at as usize))?;
    }
    Ok(kinds)
}

fn read_value(shown: &Shown, at: usize, kind: Kind) -> Result<Value, RunError>
    ensures ok { IfOk result (λ v. column shown.now at ≡ stored v) }
    ensures err { IfErr result (λ e. e ≡ RunError.Failed → at < length shown.now → ¬ IsOfKind kind (column shown.now at)) }
{
    match kind {
        Kind::Int => match shown.get::<i64>(at) {
            Ok(n) => Ok(Value::Int(n)),
            Err(error) => Err(reason(error)),
        },
        Kind::Text => match shown.get::<String>(at) {
            Ok(text) => Ok(Value::Text(Text::of(text))),
            Err(error) => Err(reason(error)),
        },
        Kind::Bytes => match shown.get::<Vec<u8>>(at) {
            Ok(bytes) => Ok(Value::Bytes(Items::of(bytes))),
            Err(error) => Err(reason(error)),
        },
    }
}

fn read_row(alloc: Global, kinds: &[Kind], shown: &Shown) -> Result<Row, RunError>
    ensures ok { IfOk result (λ row. shown.now ≡ map stored row) }
    ensures wide { IfOk result (λ row. length row ≡ length kinds.now) }
    ensures err { IfErr result (λ e. e ≡ RunError.Failed → ¬ AreOfKinds kinds.now shown.now) }
{
    if shown.column_count() != kinds.len() {
        return Err(RunError::Failed);
    }
    let mut values = Items::of(Vec::new(alloc));
    for at in 0..kinds.len() {
        values.push(read_value(shown, at, kinds[at])?)?;
    }
    Ok(values)
}

/// The rows as values of these kinds. Where one is not, none is read.
pub(crate) fn read_rows(
    alloc: Global,
    kinds: &[Kind],
    shown: &[Shown],
) -> Result<Items<Row>, RunError>
    ensures ok { IfOk result (λ rows. shown.now ≡ map (λ (row : List Field). map stored row) rows) }
    ensures wide { IfOk result (λ rows. All (λ row. length row ≡ length kinds.now) rows) }
    ensures err { IfErr result (λ e. e ≡ RunError.Failed → ¬ All (AreOfKinds kinds.now) shown.now) }
{
    let mut rows = Items::of(Vec::new(alloc));
    for one in shown {
        rows.push(read_row(alloc, kinds, one)?)?;
    }
    Ok(rows)
}
