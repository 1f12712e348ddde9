//! From tokens to the syntax of a statement.

ghost use Rattle.std.specs.Prelude.{◌≡◌, List, Option, Some, None, Result, codes};
ghost use Rattle.query_syntax.specs.Answers.{Gives};
ghost use Rattle.query_syntax.specs.declared.error.Refusal.{Refusal};
ghost use Rattle.query_syntax.specs.declared.token.Placed.{Placed};
ghost use Rattle.query_syntax.specs.Grammar.{name_at, value_at, setting_at, test_at, items_at, where_at, order_at, limit_at, select_at, qualified_at, join_test_at, join_where_at, join_order_at, joined_at, join_at, begins_join, query_at, insert_at, update_at, delete_at, form_at, parsed};

use crate::error::CompileError;
use crate::front::{
    Read, after_first, comparison_read, first_place, fixed_of, name_of, number_of, refuse, said_of,
    starts, value_of,
};
use crate::syntax::{
    Form, Given, JoinSelect, JoinTest, Joined, Named, Qualified, Query, Setting, Test,
};
use crate::token::{Fixed, Placed};
use okws_base::items::Items;
use std::alloc::Global;

/// What stands in a list.
trait Item: Drop {
    ghost use Rattle.std.specs.Prelude.{List, Result};
    ghost use Rattle.query_syntax.specs.declared.error.Refusal.{Refusal};
    ghost use Rattle.query_syntax.specs.declared.token.Placed.{Placed};

    ghost reading: { List Placed → Result (Self × List Placed) Refusal };

    fn read<'a>(alloc: Global, tokens: &'a [Placed]) -> Result<(Self, &'a [Placed]), CompileError>
        ensures { Gives (λ x. (x.0, x.1.now)) result (reading tokens.now) };
}

impl Item for Named {
    ghost reading = { name_at };

    fn read<'a>(
        alloc: Global,
        tokens: &'a [Placed],
    ) -> Result<(Named, &'a [Placed]), CompileError> {
        name_of(alloc, tokens)
    }
}

impl Item for Given {
    ghost reading = { value_at };

    fn read<'a>(
        alloc: Global,
        tokens: &'a [Placed],
    ) -> Result<(Given, &'a [Placed]), CompileError> {
        value_of(alloc, tokens)
    }
}

impl Item for Setting {
    ghost reading = { setting_at };

    fn read<'a>(
        alloc: Global,
        tokens: &'a [Placed],
    ) -> Result<(Setting, &'a [Placed]), CompileError> {
        setting_of(alloc, tokens)
    }
}

impl Item for Test {
    ghost reading = { test_at };

    fn read<'a>(alloc: Global, tokens: &'a [Placed]) -> Result<(Test, &'a [Placed]), CompileError> {
        test_of(alloc, tokens)
    }
}

impl Item for Qualified {
    ghost reading = { qualified_at };

    fn read<'a>(
        alloc: Global,
        tokens: &'a [Placed],
    ) -> Result<(Qualified, &'a [Placed]), CompileError> {
        qualified_of(alloc, tokens)
    }
}

impl Item for JoinTest {
    ghost reading = { join_test_at };

    fn read<'a>(
        alloc: Global,
        tokens: &'a [Placed],
    ) -> Result<(JoinTest, &'a [Placed]), CompileError> {
        join_test_of(alloc, tokens)
    }
}

#[tactic(auto, unfolding(crate::specs::Grammar::qualified_at))]
fn qualified_of<'a>(alloc: Global, tokens: &'a [Placed]) -> Read<'a, Qualified>
    ensures { Gives (λ x. (x.0, x.1.now)) result (qualified_at tokens.now) }
{
    let (table, tokens) = name_of(alloc, tokens)?;
    let (_, tokens) = fixed_of(Fixed::Dot, tokens)?;
    let (column, tokens) = name_of(alloc, tokens)?;
    Ok((Qualified { table, column }, tokens))
}

#[tactic(auto, unfolding(crate::specs::Grammar::join_test_at))]
fn join_test_of<'a>(alloc: Global, tokens: &'a [Placed]) -> Read<'a, JoinTest>
    ensures { Gives (λ x. (x.0, x.1.now)) result (join_test_at tokens.now) }
{
    let (column, tokens) = qualified_of(alloc, tokens)?;
    let (comparison, tokens) = comparison_read(tokens)?;
    let (value, tokens) = value_of(alloc, tokens)?;
    let test = JoinTest {
        column,
        comparison,
        value,
    };
    Ok((test, tokens))
}

#[tactic(auto, unfolding(crate::specs::Grammar::setting_at))]
fn setting_of<'a>(alloc: Global, tokens: &'a [Placed]) -> Read<'a, Setting>
    ensures { Gives (λ x. (x.0, x.1.now)) result (setting_at tokens.now) }
{
    let (column, tokens) = name_of(alloc, tokens)?;
    let (_, tokens) = fixed_of(Fixed::Equal, tokens)?;
    let (value, tokens) = value_of(alloc, tokens)?;
    Ok((Setting { column, value }, tokens))
}

#[tactic(auto, unfolding(crate::specs::Grammar::test_at))]
fn test_of<'a>(alloc: Global, tokens: &'a [Placed]) -> Read<'a, Test>
    ensures { Gives (λ x. (x.0, x.1.now)) result (test_at tokens.now) }
{
    let (column, tokens) = name_of(alloc, tokens)?;
    let (comparison, tokens) = comparison_read(tokens)?;
    let (value, tokens) = value_of(alloc, tokens)?;
    let test = Test {
        column,
        comparison,
        value,
    };
    Ok((test, tokens))
}

/// One item, and as many more as follow behind separators.
fn items_of<'a, T: Item>(
    alloc: Global,
    separator: Fixed,
    tokens: &'a [Placed],
) -> Read<'a, Items<T>>
    ensures { Gives (λ x. (x.0, x.1.now)) result (items_at separator T.reading tokens.now) }
{
    let (first, mut rest) = T::read(alloc, tokens)?;
    let mut items = Vec::new(alloc);
    items.push(first)?;
    let most = rest.len();
    for _ in 0..most {
        if !starts(separator, rest) {
            return Ok((Items::of(items), rest));
        }
        let (item, after) = T::read(alloc, after_first(rest))?;
        items.push(item)?;
        rest = after;
    }
    Ok((Items::of(items), rest))
}

#[tactic(auto, unfolding(crate::specs::Grammar::where_at))]
fn where_of<'a>(alloc: Global, tokens: &'a [Placed]) -> Read<'a, Items<Test>>
    ensures { Gives (λ x. (x.0, x.1.now)) result (where_at tokens.now) }
{
    if starts(Fixed::Where, tokens) {
        items_of(alloc, Fixed::And, after_first(tokens))
    } else {
        Ok((Items::of(Vec::new(alloc)), tokens))
    }
}

#[tactic(auto, unfolding(crate::specs::Grammar::order_at))]
fn order_of<'a>(alloc: Global, tokens: &'a [Placed]) -> Read<'a, Option<Named>>
    ensures { Gives (λ x. (x.0, x.1.now)) result (order_at tokens.now) }
{
    if starts(Fixed::Order, tokens) {
        let (_, tokens) = fixed_of(Fixed::By, after_first(tokens))?;
        let (column, tokens) = name_of(alloc, tokens)?;
        Ok((Some(column), tokens))
    } else {
        Ok((None, tokens))
    }
}

#[tactic(auto, unfolding(crate::specs::Grammar::limit_at))]
fn limit_read<'a>(tokens: &'a [Placed]) -> Read<'a, Option<u32>>
    ensures { Gives (λ x. (x.0, x.1.now)) result (limit_at tokens.now) }
{
    if starts(Fixed::Limit, tokens) {
        let (n, tokens) = number_of(after_first(tokens))?;
        Ok((Some(n), tokens))
    } else {
        Ok((None, tokens))
    }
}

#[tactic(auto, unfolding(crate::specs::Grammar::select_at))]
fn select_of<'a>(alloc: Global, tokens: &'a [Placed]) -> Read<'a, Form>
    ensures { Gives (λ x. (x.0, x.1.now)) result (select_at tokens.now) }
{
    let (columns, tokens) = items_of(alloc, Fixed::Comma, tokens)?;
    let (_, tokens) = fixed_of(Fixed::From, tokens)?;
    let (table, tokens) = name_of(alloc, tokens)?;
    let (tests, tokens) = where_of(alloc, tokens)?;
    let (order, tokens) = order_of(alloc, tokens)?;
    let (limit, tokens) = limit_read(tokens)?;
    let form = Form::Select {
        columns,
        table,
        tests,
        order,
        limit,
    };
    Ok((form, tokens))
}

#[tactic(auto, unfolding(crate::specs::Grammar::join_where_at))]
fn join_where_of<'a>(alloc: Global, tokens: &'a [Placed]) -> Read<'a, Items<JoinTest>>
    ensures { Gives (λ x. (x.0, x.1.now)) result (join_where_at tokens.now) }
{
    if starts(Fixed::Where, tokens) {
        items_of(alloc, Fixed::And, after_first(tokens))
    } else {
        Ok((Items::of(Vec::new(alloc)), tokens))
    }
}

#[tactic(auto, unfolding(crate::specs::Grammar::join_order_at))]
fn join_order_of<'a>(alloc: Global, tokens: &'a [Placed]) -> Read<'a, Option<Qualified>>
    ensures { Gives (λ x. (x.0, x.1.now)) result (join_order_at tokens.now) }
{
    if starts(Fixed::Order, tokens) {
        let (_, tokens) = fixed_of(Fixed::By, after_first(tokens))?;
        let (column, tokens) = qualified_of(alloc, tokens)?;
        Ok((Some(column), tokens))
    } else {
        Ok((None, tokens))
    }
}

#[tactic(auto, unfolding(crate::specs::Grammar::joined_at))]
fn joined_of<'a>(alloc: Global, tokens: &'a [Placed]) -> Read<'a, Joined>
    ensures { Gives (λ x. (x.0, x.1.now)) result (joined_at tokens.now) }
{
    let (_, tokens) = fixed_of(Fixed::From, tokens)?;
    let (table, tokens) = name_of(alloc, tokens)?;
    let (_, tokens) = said_of(b"JOIN", tokens)?;
    let (second, tokens) = name_of(alloc, tokens)?;
    let (_, tokens) = said_of(b"ON", tokens)?;
    let (left, tokens) = qualified_of(alloc, tokens)?;
    let (_, tokens) = fixed_of(Fixed::Equal, tokens)?;
    let (right, tokens) = qualified_of(alloc, tokens)?;
    let joined = Joined {
        table,
        second,
        left,
        right,
    };
    Ok((joined, tokens))
}

#[tactic(auto, unfolding(crate::specs::Grammar::join_at))]
fn join_of<'a>(alloc: Global, tokens: &'a [Placed]) -> Read<'a, JoinSelect>
    ensures { Gives (λ x. (x.0, x.1.now)) result (join_at tokens.now) }
{
    let (columns, tokens) = items_of(alloc, Fixed::Comma, tokens)?;
    let (joined, tokens) = joined_of(alloc, tokens)?;
    let (tests, tokens) = join_where_of(alloc, tokens)?;
    let (order, tokens) = join_order_of(alloc, tokens)?;
    let (limit, tokens) = limit_read(tokens)?;
    let join = JoinSelect {
        columns,
        joined,
        tests,
        order,
        limit,
    };
    Ok((join, tokens))
}

#[tactic(auto, unfolding(crate::specs::Grammar::insert_at))]
fn insert_of<'a>(alloc: Global, tokens: &'a [Placed]) -> Read<'a, Form>
    ensures { Gives (λ x. (x.0, x.1.now)) result (insert_at tokens.now) }
{
    let (_, tokens) = fixed_of(Fixed::Into, tokens)?;
    let (table, tokens) = name_of(alloc, tokens)?;
    let (list, tokens) = fixed_of(Fixed::Open, tokens)?;
    let (columns, tokens) = items_of(alloc, Fixed::Comma, tokens)?;
    let (_, tokens) = fixed_of(Fixed::Close, tokens)?;
    let (_, tokens) = fixed_of(Fixed::Values, tokens)?;
    let (_, tokens) = fixed_of(Fixed::Open, tokens)?;
    let (values, tokens) = items_of(alloc, Fixed::Comma, tokens)?;
    let (_, tokens) = fixed_of(Fixed::Close, tokens)?;
    let form = Form::Insert {
        table,
        list,
        columns,
        values,
    };
    Ok((form, tokens))
}

#[tactic(auto, unfolding(crate::specs::Grammar::update_at))]
fn update_of<'a>(alloc: Global, tokens: &'a [Placed]) -> Read<'a, Form>
    ensures { Gives (λ x. (x.0, x.1.now)) result (update_at tokens.now) }
{
    let (table, tokens) = name_of(alloc, tokens)?;
    let (_, tokens) = fixed_of(Fixed::Set, tokens)?;
    let (settings, tokens) = items_of(alloc, Fixed::Comma, tokens)?;
    let (tests, tokens) = where_of(alloc, tokens)?;
    let form = Form::Update {
        table,
        settings,
        tests,
    };
    Ok((form, tokens))
}

#[tactic(auto, unfolding(crate::specs::Grammar::delete_at))]
fn delete_of<'a>(alloc: Global, tokens: &'a [Placed]) -> Read<'a, Form>
    ensures { Gives (λ x. (x.0, x.1.now)) result (delete_at tokens.now) }
{
    let (_, tokens) = fixed_of(Fixed::From, tokens)?;
    let (table, tokens) = name_of(alloc, tokens)?;
    let (tests, tokens) = where_of(alloc, tokens)?;
    Ok((Form::Delete { table, tests }, tokens))
}

#[tactic(auto, unfolding(crate::specs::Grammar::form_at))]
fn form_of<'a>(alloc: Global, tokens: &'a [Placed]) -> Read<'a, Form>
    ensures { Gives (λ x. (x.0, x.1.now)) result (form_at tokens.now) }
{
    let more = after_first(tokens);
    if starts(Fixed::Select, tokens) {
        select_of(alloc, more)
    } else if starts(Fixed::Insert, tokens) {
        insert_of(alloc, more)
    } else if starts(Fixed::Update, tokens) {
        update_of(alloc, more)
    } else if starts(Fixed::Delete, tokens) {
        delete_of(alloc, more)
    } else {
        Err(refuse(first_place(tokens)))
    }
}

/// Whether the tokens begin a SELECT from two tables: a `.` stands behind its first word.
fn is_join(tokens: &[Placed]) -> bool
    ensures { result ≡ begins_join tokens.now }
{
    starts(Fixed::Select, tokens) && starts(Fixed::Dot, after_first(after_first(tokens)))
}

fn query_of<'a>(alloc: Global, tokens: &'a [Placed]) -> Read<'a, Query>
    ensures { Gives (λ x. (x.0, x.1.now)) result (query_at tokens.now) }
{
    if is_join(tokens) {
        let (join, tokens) = join_of(alloc, after_first(tokens))?;
        Ok((Query::Two(join), tokens))
    } else {
        let (form, tokens) = form_of(alloc, tokens)?;
        Ok((Query::One(form), tokens))
    }
}

/// The query that the tokens are as a whole, or the first token that the grammar doesn't allow.
#[tactic(auto, unfolding(crate::specs::Grammar::parsed))]
pub fn parse(alloc: Global, tokens: &[Placed]) -> Result<Query, CompileError>
    ensures { Gives (λ query. query) result (parsed tokens.now) }
{
    let (query, tokens) = query_of(alloc, tokens)?;
    fixed_of(Fixed::End, tokens)?;
    Ok(query)
}
