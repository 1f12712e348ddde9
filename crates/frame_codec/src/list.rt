//! Lists of what frames are spelled of, read from the front of bytes: the values of a row, rows, and
//! tokens. Each is passed over before one is kept, so that bytes that are no list take no memory.

ghost use Rattle.std.specs.Prelude.{◌≡◌, List, ℕ, option_map, IsSome};
ghost use Rattle.okws_base.specs.declared.value.Value.{Value};
ghost use Rattle.frame_codec.specs.declared.frame.Issued.{Issued};
ghost use Rattle.frame_codec.specs.Reading.{Finds, Gives, many_at};
ghost use Rattle.frame_codec.specs.ServiceFields.{values_at};
ghost use Rattle.frame_codec.specs.ServerFields.{issued_at, issues_at, rows_at};

use crate::field::{Misread, ReadError, after_value, token_at, u8_at, u16_at, value_of};
use crate::frame::Issued;
use okws_base::items::Items;
use okws_base::value::{Row, Value};
use std::alloc::Global;

/// What stands behind so many values.
fn after_many(count: u8, bytes: &[u8]) -> Result<&[u8], Misread>
    ensures { Finds (λ rest. rest.now) result (option_map (λ (a : List Value × List ℕ). a.1) (many_at count bytes.now)) }
{
    let mut rest = bytes;
    for _ in 0..count {
        rest = after_value(rest)?;
    }
    Ok(rest)
}

/// What stands behind values and their count.
#[tactic(auto, unfolding(crate::specs::ServiceFields::values_at))]
pub(crate) fn after_values(bytes: &[u8]) -> Result<&[u8], Misread>
    ensures { Finds (λ rest. rest.now) result (option_map (λ (a : List Value × List ℕ). a.1) (values_at bytes.now)) }
{
    let (count, rest) = u8_at(bytes)?;
    after_many(count, rest)
}

/// What stands behind so many rows of so many values.
pub(crate) fn after_rows(columns: u8, count: u32, bytes: &[u8]) -> Result<&[u8], Misread>
    ensures { Finds (λ rest. rest.now) result (option_map (λ (a : List (List Value) × List ℕ). a.1) (rows_at columns count bytes.now)) }
{
    let mut rest = bytes;
    for _ in 0..count {
        rest = after_many(columns, rest)?;
    }
    Ok(rest)
}

/// So many values, which stand there.
fn many_of(alloc: Global, count: u8, bytes: &[u8]) -> Result<(Items<Value>, &[u8]), ReadError>
    requires { IsSome (many_at count bytes.now) }
    ensures { Gives (λ x. (x.0, x.1.now)) result (many_at count bytes.now) }
{
    let mut values = Vec::new(alloc);
    let mut rest = bytes;
    for _ in 0..count {
        let (value, behind) = value_of(alloc, rest)?;
        values.push(value)?;
        rest = behind;
    }
    Ok((Items::of(values), rest))
}

/// Values behind their count, which stand there.
#[tactic(auto, unfolding(crate::specs::ServiceFields::values_at))]
pub(crate) fn values_of(alloc: Global, bytes: &[u8]) -> Result<(Items<Value>, &[u8]), ReadError>
    requires { IsSome (values_at bytes.now) }
    ensures { Gives (λ x. (x.0, x.1.now)) result (values_at bytes.now) }
{
    let (count, rest) = u8_at(bytes)?;
    many_of(alloc, count, rest)
}

/// So many rows of so many values, which stand there.
pub(crate) fn rows_of(
    alloc: Global,
    columns: u8,
    count: u32,
    bytes: &[u8],
) -> Result<(Items<Row>, &[u8]), ReadError>
    requires { IsSome (rows_at columns count bytes.now) }
    ensures { Gives (λ x. (x.0, x.1.now)) result (rows_at columns count bytes.now) }
{
    let mut rows = Vec::new(alloc);
    let mut rest = bytes;
    for _ in 0..count {
        let (row, behind) = many_of(alloc, columns, rest)?;
        rows.push(row)?;
        rest = behind;
    }
    Ok((Items::of(rows), rest))
}

/// A token behind its proxy's number.
fn issued_of(bytes: &[u8]) -> Result<(Issued, &[u8]), Misread>
    ensures { Finds (λ x. (x.0, x.1.now)) result (issued_at bytes.now) }
{
    let (proxy, rest) = u16_at(bytes)?;
    let (token, rest) = token_at(rest)?;
    Ok((Issued { proxy, token }, rest))
}

/// What stands behind so many tokens.
pub(crate) fn after_issues(count: u8, bytes: &[u8]) -> Result<&[u8], Misread>
    ensures { Finds (λ rest. rest.now) result (option_map (λ (a : List Issued × List ℕ). a.1) (issues_at count bytes.now)) }
{
    let mut rest = bytes;
    for _ in 0..count {
        rest = issued_of(rest)?.1;
    }
    Ok(rest)
}

/// So many tokens, which stand there.
pub(crate) fn issues_of(
    alloc: Global,
    count: u8,
    bytes: &[u8],
) -> Result<(Items<Issued>, &[u8]), ReadError>
    requires { IsSome (issues_at count bytes.now) }
    ensures { Gives (λ x. (x.0, x.1.now)) result (issues_at count bytes.now) }
{
    let mut issues = Vec::new(alloc);
    let mut rest = bytes;
    for _ in 0..count {
        let (issued, behind) = issued_of(rest)?;
        issues.push(issued)?;
        rest = behind;
    }
    Ok((Items::of(issues), rest))
}
