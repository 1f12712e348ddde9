//! The columns that a `table` line writes.

ghost use Rattle.std.specs.Prelude.{◌≡◌, ◌≤◌, ◌∷◌, ℕ, List, IfOk, option_map, length, map, IsTrue};
ghost use Rattle.std.specs.List.{list_all, list_any};
ghost use Rattle.okws_base.specs.Names.{is_identifier};
ghost use Rattle.okws_base.specs.Value.{same_bytes};
ghost use Rattle.plain_text.specs.Words.{words};
ghost use Rattle.config_syntax.specs.Declarations.{columns_from, AtName, AtKey, with_column, table_words, TableWords as Written};
ghost use Rattle.config_syntax.specs.Columns.{is_kind, repeats, key_count};
ghost use Rattle.config_syntax.specs.Columns.{kind_named, column_of};

use okws_base::items::Items;
use okws_base::name::{Identifier, is_an_identifier};
use okws_base::value::Kind;
use okws_plan::configuration::Column;
use plain_text::parts::is_same;
use plain_text::words::first_word;
use std::alloc::{AllocError, Global};
use std::marker::Model;

/// A column as it is written: the words in the places of its name and its TYPE, and whether KEY
/// stands behind them.
#[derive(Drop)]
pub struct ColumnWords<'a> {
    pub name: &'a [u8],
    pub kind: &'a [u8],
    pub key: bool,
}

impl<'a> Model for ColumnWords<'a> {
    ghost use Rattle.config_syntax.specs.Declarations.{ColumnWords};

    ghost Value = { ColumnWords };

    ghost view = { λ a. record { name = a.name.now; kind = a.kind.now; key = a.key } };
}

/// Whether KEY stands next, and what stands behind it.
fn key_mark(bytes: &[u8]) -> (bool, &[u8])
    ensures is { (name kind : List ℕ) → columns_from (AtKey name kind) (words bytes.now) ≡ with_column (record { name = name; kind = kind; key = result.0 }) (columns_from AtName (words result.1.now)) }
    ensures shorter { length result.1.now ≤ length bytes.now }
{
    match first_word(bytes) {
        None => (false, bytes),
        Some((word, behind)) => {
            if is_same(word, b"KEY") {
                (true, behind)
            } else {
                (false, bytes)
            }
        }
    }
}

/// The columns that the words write; None where a TYPE is missing.
pub fn columns_of(alloc: Global, bytes: &[u8]) -> Result<Option<Vec<ColumnWords<'_>>>, AllocError>
    ensures { IfOk result (λ found. option_map (λ v. v.items) found ≡ columns_from AtName (words bytes.now)) }
{
    let mut out = Vec::new(alloc);
    let mut rest = bytes;
    while let Some((name, behind)) = first_word(rest) {
        let Some((kind, behind)) = first_word(behind) else {
            return Ok(None);
        };
        let (key, behind) = key_mark(behind);
        out.push(ColumnWords { name, kind, key })?;
        rest = behind;
    }
    Ok(Some(out))
}

/// What a `table` line declares: the words of the proxy and the table, and the columns.
#[derive(Drop)]
pub struct TableWords<'a> {
    pub proxy: &'a [u8],
    pub name: &'a [u8],
    pub columns: Vec<ColumnWords<'a>>,
}

impl<'a> Model for TableWords<'a> {
    ghost use Rattle.config_syntax.specs.Declarations.{TableWords};

    ghost Value = { TableWords };

    ghost view = { λ a. record { proxy = a.proxy.now; name = a.name.now; columns = a.columns.items } };
}

/// What the bytes behind `table` write; None where a word is missing.
pub fn table_words_of(alloc: Global, bytes: &[u8]) -> Result<Option<TableWords<'_>>, AllocError>
    ensures { IfOk result (λ found. found ≡ table_words (words bytes.now)) }
{
    let Some((proxy, rest)) = first_word(bytes) else {
        return Ok(None);
    };
    let Some((name, rest)) = first_word(rest) else {
        return Ok(None);
    };
    match columns_of(alloc, rest)? {
        None => Ok(None),
        Some(columns) => {
            if columns.is_empty() {
                Ok(None)
            } else {
                Ok(Some(TableWords {
                    proxy,
                    name,
                    columns,
                }))
            }
        }
    }
}

fn is_a_kind(word: &[u8]) -> bool
    ensures { result ≡ is_kind word.now }
{
    is_same(word, b"INT") || is_same(word, b"TEXT") || is_same(word, b"BYTES")
}

/// Whether each column has a TYPE.
pub fn have_kinds(columns: &[ColumnWords]) -> bool
    ensures { result ≡ list_all (λ c. is_kind c.kind) columns.now }
{
    for column in columns {
        if !is_a_kind(column.kind) {
            return false;
        }
    }
    true
}

fn is_among(columns: &[ColumnWords], name: &[u8]) -> bool
    ensures { result ≡ list_any (λ c. same_bytes name.now c.name) columns.now }
{
    for column in columns {
        if is_same(name, column.name) {
            return true;
        }
    }
    false
}

/// Whether two of the columns have one name.
pub fn have_repeats(columns: &[ColumnWords]) -> bool
    ensures { result ≡ repeats columns.now }
{
    for i in 0..columns.len() {
        let column = &columns[i];
        if is_among(&columns[i + 1..], column.name) {
            return true;
        }
    }
    false
}

/// How many columns are marked.
pub fn count_keys(columns: &[ColumnWords]) -> usize
    ensures { result ≡ key_count columns.now }
{
    let mut count = 0;
    for column in columns {
        if column.key {
            count += 1;
        }
    }
    count
}

fn kind_of_word(word: &[u8]) -> Kind
    ensures { result ≡ kind_named word.now }
{
    if is_same(word, b"INT") {
        Kind::Int
    } else if is_same(word, b"TEXT") {
        Kind::Text
    } else {
        Kind::Bytes
    }
}

/// Whether each column has an identifier.
pub fn have_identifiers(columns: &[ColumnWords]) -> bool
    ensures { result ≡ list_all (λ c. is_identifier c.name) columns.now }
{
    for column in columns {
        if !is_an_identifier(column.name) {
            return false;
        }
    }
    true
}

/// The identifier of a word.
pub fn identifier_of(alloc: Global, word: &[u8]) -> Result<Identifier, AllocError>
    requires { IsTrue (is_identifier word.now) }
    ensures { IfOk result (λ i. i ≡ word.now) }
{
    let bytes = Items::of(Vec::from_slice(alloc, word)?);
    Ok(Identifier::new(bytes).unwrap())
}

/// The columns that the words declare.
#[tactic(auto, using(std::proofs::lemmas::List::Folds::list_all_at))]
pub fn declared_columns(alloc: Global, columns: &[ColumnWords]) -> Result<Vec<Column>, AllocError>
    requires { IsTrue (list_all (λ c. is_identifier c.name) columns.now) }
    ensures { IfOk result (λ v. v.items ≡ map column_of columns.now) }
{
    let mut out = Vec::new(alloc);
    for column in columns {
        out.push(Column {
            name: identifier_of(alloc, column.name)?,
            kind: kind_of_word(column.kind),
            key: column.key,
        })?;
    }
    Ok(out)
}
