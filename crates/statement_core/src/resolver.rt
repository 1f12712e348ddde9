//! From the syntax of a statement to the statement on the tables of a proxy.

ghost use Rattle.std.specs.Prelude.{◌≡◌, Some};
ghost use Rattle.query_syntax.specs.Answers.{Gives};
ghost use Rattle.statement_core.specs.Resolving.{table_word, undeclared, on_table, or_sooner};
ghost use Rattle.statement_core.specs.Joining.{lacks_column, listed_fault, sooner_of_list, missing_word, join_undeclared, join_resolved_at, resolved};

use crate::action::{action_on, join_selection};
use crate::earliest::earlier_refusal;
use crate::excess::{excess_of, excess_of_join};
use crate::join_judge::{is_of_neither, judged_join};
use crate::join_words::join_words;
use crate::judge::judged;
use crate::lookup::{columns_at, number_in_table, number_in_tables};
use crate::scope::Scope;
use okws_plan::configuration::{Column, Table};
use okws_plan::statement::{Action, Statement};
use query_syntax::error::{CompileError, Refusal, TextRule};
use query_syntax::syntax::{Form, JoinSelect, Joined, Named, Qualified, Query};
use std::alloc::Global;

fn word_of_table(form: &Form) -> &Named
    ensures { result.now ≡ table_word form.now }
{
    match form {
        Form::Select { table, .. } => table,
        Form::Insert { table, .. } => table,
        Form::Update { table, .. } => table,
        Form::Delete { table, .. } => table,
    }
}

#[tactic(auto, unfolding(crate::specs::Resolving::on_table))]
fn statement_on(
    alloc: Global,
    end: usize,
    columns: &[Column],
    table: u8,
    form: &Form,
) -> Result<Statement, CompileError>
    ensures { Gives (λ statement. statement) result (on_table end columns.now table form.now) }
{
    let judge = judged(alloc, columns, form)?;
    if let Some(found) = judge.fault_at(end) {
        return Err(CompileError::TextRefused(found));
    }
    Ok(Statement {
        table,
        parameters: judge.kinds(alloc)?,
        action: action_on(alloc, columns, form)?,
    })
}

/// The earliest broken rule of a form whose table isn't declared.
fn undeclared_fault(form: &Form) -> Refusal
    ensures { result ≡ undeclared form.now }
{
    let missing = Refusal {
        at: word_of_table(form).at,
        rule: TextRule::NoSuchTable,
    };
    match excess_of(form) {
        None => missing,
        Some(found) => earlier_refusal(missing, found),
    }
}

fn form_statement(
    alloc: Global,
    tables: &[Table],
    end: usize,
    form: &Form,
) -> Result<Statement, CompileError>
    ensures { Gives (λ statement. statement) result (resolved tables.now end (Query.One form.now)) }
{
    match number_in_tables(tables, word_of_table(form).name.as_slice()) {
        Some(table) => statement_on(alloc, end, columns_at(tables, table as usize), table, form),
        None => Err(CompileError::TextRefused(undeclared_fault(form))),
    }
}

/// The statement of a SELECT from the tables of these numbers.
#[tactic(auto, unfolding(crate::specs::Joining::on_tables))]
fn join_statement(
    alloc: Global,
    tables: &[Table],
    end: usize,
    first: u8,
    second: u8,
    select: &JoinSelect,
) -> Result<Statement, CompileError>
    ensures { Gives (λ statement. statement) result (join_resolved_at tables.now end select.now (Some first) (Some second)) }
{
    let columns = columns_at(tables, first as usize);
    let scope = Scope::joined(
        select.joined.table.name.as_slice(),
        columns,
        select.joined.second.name.as_slice(),
        columns_at(tables, second as usize),
    );
    let words = join_words(alloc, select)?;
    let is_one = first == second;
    let judge = judged_join(alloc, columns.len(), is_one, &scope, select, &words)?;
    if let Some(found) = judge.fault_at(end) {
        return Err(CompileError::TextRefused(found));
    }
    let parameters = judge.kinds(alloc)?;
    let selection = join_selection(alloc, &scope, second, select.limit, &words)?;
    Ok(Statement {
        table: first,
        parameters,
        action: Action::Select(selection),
    })
}

fn is_lacking(tables: &[Table], table: Option<u8>, column: &[u8]) -> bool
    ensures { result ≡ lacks_column tables.now table column.now }
{
    match table {
        None => false,
        Some(table) => number_in_table(columns_at(tables, table as usize), column).is_none(),
    }
}

fn listed_refusal(tables: &[Table], joined: &Joined, column: &Qualified) -> Option<Refusal>
    ensures { result ≡ listed_fault tables.now joined.now column.now }
{
    let table = number_in_tables(tables, column.table.name.as_slice());
    if is_of_neither(joined, column) {
        Some(Refusal {
            at: column.table.at,
            rule: TextRule::NoSuchTable,
        })
    } else if is_lacking(tables, table, column.column.name.as_slice()) {
        Some(Refusal {
            at: column.column.at,
            rule: TextRule::NoSuchColumn,
        })
    } else {
        None
    }
}

fn sooner_refusal(best: Refusal, found: Option<Refusal>) -> Refusal
    ensures { result ≡ or_sooner best found }
{
    match found {
        None => best,
        Some(found) => earlier_refusal(best, found),
    }
}

fn sooner_listed(tables: &[Table], joined: &Joined, missing: Refusal, list: &[Qualified]) -> Refusal
    ensures { result ≡ sooner_of_list tables.now joined.now missing list.now }
{
    let mut best = missing;
    for column in list {
        best = sooner_refusal(best, listed_refusal(tables, joined, column));
    }
    best
}

fn place_of_missing(joined: &Joined, first: Option<u8>) -> usize
    ensures { result ≡ (missing_word joined.now first).at }
{
    match first {
        None => joined.table.at,
        Some(_) => joined.second.at,
    }
}

/// The earliest broken rule of a SELECT from two tables of which one isn't declared.
fn join_fault(tables: &[Table], first: Option<u8>, select: &JoinSelect) -> Refusal
    ensures { result ≡ join_undeclared tables.now first select.now }
{
    let missing = Refusal {
        at: place_of_missing(&select.joined, first),
        rule: TextRule::NoSuchTable,
    };
    let best = sooner_listed(tables, &select.joined, missing, select.columns.as_slice());
    sooner_refusal(best, excess_of_join(select))
}

fn select_statement(
    alloc: Global,
    tables: &[Table],
    end: usize,
    select: &JoinSelect,
) -> Result<Statement, CompileError>
    ensures { Gives (λ statement. statement) result (resolved tables.now end (Query.Two select.now)) }
{
    let first = number_in_tables(tables, select.joined.table.name.as_slice());
    let second = number_in_tables(tables, select.joined.second.name.as_slice());
    match (first, second) {
        (Some(first), Some(second)) => join_statement(alloc, tables, end, first, second, select),
        _ => Err(CompileError::TextRefused(join_fault(tables, first, select))),
    }
}

/// The statement that a query is on these tables, or the earliest rule that it breaks; `end` is the
/// text's length in bytes.
pub fn resolve(
    alloc: Global,
    tables: &[Table],
    end: usize,
    query: &Query,
) -> Result<Statement, CompileError>
    ensures { Gives (λ statement. statement) result (resolved tables.now end query.now) }
{
    match query {
        Query::One(form) => form_statement(alloc, tables, end, form),
        Query::Two(select) => select_statement(alloc, tables, end, select),
    }
}
