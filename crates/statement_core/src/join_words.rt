//! The words of a SELECT from two tables, each qualified column as one word.

ghost use Rattle.std.specs.Prelude.{◌≡◌, IfOk, map, option_map};
ghost use Rattle.statement_core.specs.Joining.{qualified_name, joined_word, joined_test, words_of as words_of_join};

use okws_base::items::{Exact, Items};
use query_syntax::syntax::{Given, JoinSelect, JoinTest, Named, Qualified, Test, Written};
use std::alloc::{AllocError, Global};

/// What a SELECT from two tables lists, tests and is ordered by, and what ON names, in words.
#[derive(Drop)]
pub struct JoinWords {
    pub list: Items<Named>,
    pub tests: Items<Test>,
    pub order: Option<Named>,
    pub left: Named,
    pub right: Named,
}

fn qualified(alloc: Global, table: &[u8], column: &[u8]) -> Result<Items<u8>, AllocError>
    ensures { IfOk result (λ name. name ≡ qualified_name table.now column.now) }
{
    let mut name = Vec::new(alloc);
    name.extend_from_slice(table)?;
    name.push(b'.')?;
    name.extend_from_slice(column)?;
    Ok(Items::of(name))
}

/// A qualified column as one word, at the place of the column's own.
fn word_of(alloc: Global, column: &Qualified) -> Result<Named, AllocError>
    ensures { IfOk result (λ word. word ≡ joined_word column.now) }
{
    Ok(Named {
        at: column.column.at,
        name: qualified(
            alloc,
            column.table.name.as_slice(),
            column.column.name.as_slice(),
        )?,
    })
}

fn words_of(alloc: Global, list: &[Qualified]) -> Result<Items<Named>, AllocError>
    ensures { IfOk result (λ words. words ≡ map joined_word list.now) }
{
    let mut words = Vec::new(alloc);
    for column in list {
        words.push(word_of(alloc, column)?)?;
    }
    Ok(Items::of(words))
}

fn given_of(alloc: Global, given: &Given) -> Result<Given, AllocError>
    ensures { IfOk result (λ copy. copy ≡ given.now) }
{
    Ok(Given {
        at: given.at,
        value: match &given.value {
            Written::Parameter(number) => Written::Parameter(*number),
            Written::Literal(value) => Written::Literal(value.copy(alloc)?),
        },
    })
}

fn test_of(alloc: Global, test: &JoinTest) -> Result<Test, AllocError>
    ensures { IfOk result (λ found. found ≡ joined_test test.now) }
{
    Ok(Test {
        column: word_of(alloc, &test.column)?,
        comparison: test.comparison,
        value: given_of(alloc, &test.value)?,
    })
}

fn tests_of(alloc: Global, tests: &[JoinTest]) -> Result<Items<Test>, AllocError>
    ensures { IfOk result (λ found. found ≡ map joined_test tests.now) }
{
    let mut found = Vec::new(alloc);
    for test in tests {
        found.push(test_of(alloc, test)?)?;
    }
    Ok(Items::of(found))
}

fn order_of(alloc: Global, order: &Option<Qualified>) -> Result<Option<Named>, AllocError>
    ensures { IfOk result (λ word. word ≡ option_map joined_word order.now) }
{
    match order {
        None => Ok(None),
        Some(column) => Ok(Some(word_of(alloc, column)?)),
    }
}

/// The words of a SELECT from two tables.
pub fn join_words(alloc: Global, select: &JoinSelect) -> Result<JoinWords, AllocError>
    ensures { IfOk result (λ words. words ≡ words_of_join select.now) }
{
    Ok(JoinWords {
        list: words_of(alloc, select.columns.as_slice())?,
        tests: tests_of(alloc, select.tests.as_slice())?,
        order: order_of(alloc, &select.order)?,
        left: word_of(alloc, &select.joined.left)?,
        right: word_of(alloc, &select.joined.right)?,
    })
}
