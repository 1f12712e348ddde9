//! The canonical text of a statement, by its tokens.

ghost use Rattle.std.specs.Prelude.{◌≡◌, ◌<◌, ◌++◌, IfOk, OnOk, true};
ghost use Rattle.query_syntax.specs.Spelling.{comparison_sign, limit_tokens};
ghost use Rattle.statement_core.specs.Canonical.{column_token, table_token, operand_token, before, column_tokens, all_column_tokens, operand_tokens, assignment_tokens, condition_tokens, order_tokens, action_tokens, statement_tokens, canonical};
ghost use Rattle.statement_core.specs.Recompiled.{CompilesTo};

use crate::join_tokens::join_tokens;
use okws_base::items::{Exact, Items};
use okws_base::value::Value;
use okws_plan::configuration::{Column, Table};
use okws_plan::statement::{
    Action, Assignment, Comparison, Condition, Operand, Selection, Statement,
};
use query_syntax::spelling::spelled;
use query_syntax::token::{Fixed, Token};
use statement_core::columns_at;
use std::alloc::{AllocError, Global};

pub fn column_of(alloc: Global, columns: &[Column], number: u8) -> Result<Token, AllocError>
    ensures { IfOk result (λ token. token ≡ column_token columns.now number) }
{
    match columns.get(number as usize) {
        None => Ok(Token::Word(Items::of(Vec::new(alloc)))),
        Some(column) => word_of(alloc, column.name.as_slice()),
    }
}

pub fn table_of(alloc: Global, tables: &[Table], number: u8) -> Result<Token, AllocError>
    ensures { IfOk result (λ token. token ≡ table_token tables.now number) }
{
    match tables.get(number as usize) {
        None => Ok(Token::Word(Items::of(Vec::new(alloc)))),
        Some(table) => word_of(alloc, table.name.as_slice()),
    }
}

pub fn word_of(alloc: Global, word: &[u8]) -> Result<Token, AllocError>
    ensures { IfOk result (λ token. token ≡ Token.Word word.now) }
{
    Ok(Token::Word(Items::of(Vec::from_slice(alloc, word)?)))
}

pub fn operand_of(alloc: Global, operand: &Operand) -> Result<Token, AllocError>
    ensures { IfOk result (λ token. token ≡ operand_token operand.now) }
{
    Ok(match operand {
        Operand::Parameter(number) => Token::Parameter(u64::from(*number)),
        Operand::Literal(value) => Token::Literal(value.copy(alloc)?),
    })
}

pub fn sign_of(comparison: Comparison) -> Fixed
    ensures { result ≡ comparison_sign comparison }
{
    match comparison {
        Comparison::Equal => Fixed::Equal,
        Comparison::Differs => Fixed::Differs,
        Comparison::Below => Fixed::Below,
        Comparison::AtMost => Fixed::AtMost,
        Comparison::Above => Fixed::Above,
        Comparison::AtLeast => Fixed::AtLeast,
    }
}

pub fn put_before(out: &mut Vec<Token>, is_first: bool, separator: Fixed) -> Result<(), AllocError>
    ensures { OnOk result (out.new.items ≡ out.old.items ++ before is_first separator) }
{
    if !is_first {
        out.push(Token::Fixed(separator))?;
    }
    Ok(())
}

fn put_columns(
    alloc: Global,
    out: &mut Vec<Token>,
    columns: &[Column],
    list: &[u8],
) -> Result<(), AllocError>
    ensures { OnOk result (out.new.items ≡ out.old.items ++ column_tokens columns.now true list.now) }
{
    for i in 0..list.len() {
        put_before(out, i == 0, Fixed::Comma)?;
        out.push(column_of(alloc, columns, list[i])?)?;
    }
    Ok(())
}

fn put_all_columns(
    alloc: Global,
    out: &mut Vec<Token>,
    columns: &[Column],
) -> Result<(), AllocError>
    ensures { OnOk result (out.new.items ≡ out.old.items ++ all_column_tokens true columns.now) }
{
    for i in 0..columns.len() {
        put_before(out, i == 0, Fixed::Comma)?;
        out.push(word_of(alloc, columns[i].name.as_slice())?)?;
    }
    Ok(())
}

fn put_operands(alloc: Global, out: &mut Vec<Token>, operands: &[Operand]) -> Result<(), AllocError>
    ensures { OnOk result (out.new.items ≡ out.old.items ++ operand_tokens true operands.now) }
{
    for i in 0..operands.len() {
        put_before(out, i == 0, Fixed::Comma)?;
        out.push(operand_of(alloc, &operands[i])?)?;
    }
    Ok(())
}

fn put_assignments(
    alloc: Global,
    out: &mut Vec<Token>,
    columns: &[Column],
    assignments: &[Assignment],
) -> Result<(), AllocError>
    ensures { OnOk result (out.new.items ≡ out.old.items ++ assignment_tokens columns.now true assignments.now) }
{
    for i in 0..assignments.len() {
        put_before(out, i == 0, Fixed::Comma)?;
        out.push(column_of(alloc, columns, assignments[i].column)?)?;
        out.push(Token::Fixed(Fixed::Equal))?;
        out.push(operand_of(alloc, &assignments[i].operand)?)?;
    }
    Ok(())
}

fn put_conditions(
    alloc: Global,
    out: &mut Vec<Token>,
    columns: &[Column],
    conditions: &[Condition],
) -> Result<(), AllocError>
    ensures { OnOk result (out.new.items ≡ out.old.items ++ condition_tokens columns.now true conditions.now) }
{
    for i in 0..conditions.len() {
        let word = if i == 0 { Fixed::Where } else { Fixed::And };
        out.push(Token::Fixed(word))?;
        out.push(column_of(alloc, columns, conditions[i].column)?)?;
        out.push(Token::Fixed(sign_of(conditions[i].comparison)))?;
        out.push(operand_of(alloc, &conditions[i].operand)?)?;
    }
    Ok(())
}

fn put_order(
    alloc: Global,
    out: &mut Vec<Token>,
    columns: &[Column],
    order: Option<u8>,
) -> Result<(), AllocError>
    ensures { OnOk result (out.new.items ≡ out.old.items ++ order_tokens columns.now order) }
{
    if let Some(column) = order {
        out.push(Token::Fixed(Fixed::Order))?;
        out.push(Token::Fixed(Fixed::By))?;
        out.push(column_of(alloc, columns, column)?)?;
    }
    Ok(())
}

pub fn put_limit(out: &mut Vec<Token>, limit: Option<u32>) -> Result<(), AllocError>
    ensures { OnOk result (out.new.items ≡ out.old.items ++ limit_tokens limit) }
{
    if let Some(n) = limit {
        out.push(Token::Fixed(Fixed::Limit))?;
        out.push(Token::Literal(Value::Int(i64::from(n))))?;
    }
    Ok(())
}

fn selection_tokens(
    alloc: Global,
    columns: &[Column],
    table: Token,
    selection: &Selection,
) -> Result<Vec<Token>, AllocError>
    ensures { IfOk result (λ tokens. tokens.items ≡ action_tokens columns.now table (Action.Select selection.now)) }
{
    let mut out = Vec::new(alloc);
    out.push(Token::Fixed(Fixed::Select))?;
    put_columns(alloc, &mut out, columns, selection.columns.as_slice())?;
    out.push(Token::Fixed(Fixed::From))?;
    out.push(table)?;
    put_conditions(alloc, &mut out, columns, selection.conditions.as_slice())?;
    put_order(alloc, &mut out, columns, selection.order)?;
    put_limit(&mut out, selection.limit)?;
    Ok(out)
}

fn insertion_tokens(
    alloc: Global,
    columns: &[Column],
    table: Token,
    values: &Items<Operand>,
) -> Result<Vec<Token>, AllocError>
    ensures { IfOk result (λ tokens. tokens.items ≡ action_tokens columns.now table (Action.Insert values.now)) }
{
    let mut out = Vec::new(alloc);
    out.push(Token::Fixed(Fixed::Insert))?;
    out.push(Token::Fixed(Fixed::Into))?;
    out.push(table)?;
    out.push(Token::Fixed(Fixed::Open))?;
    put_all_columns(alloc, &mut out, columns)?;
    out.push(Token::Fixed(Fixed::Close))?;
    out.push(Token::Fixed(Fixed::Values))?;
    out.push(Token::Fixed(Fixed::Open))?;
    put_operands(alloc, &mut out, values.as_slice())?;
    out.push(Token::Fixed(Fixed::Close))?;
    Ok(out)
}

fn change_tokens(
    alloc: Global,
    columns: &[Column],
    table: Token,
    assignments: &Items<Assignment>,
    conditions: &Items<Condition>,
) -> Result<Vec<Token>, AllocError>
    ensures { IfOk result (λ tokens. tokens.items ≡ action_tokens columns.now table (Action.Update assignments.now conditions.now)) }
{
    let mut out = Vec::new(alloc);
    out.push(Token::Fixed(Fixed::Update))?;
    out.push(table)?;
    out.push(Token::Fixed(Fixed::Set))?;
    put_assignments(alloc, &mut out, columns, assignments.as_slice())?;
    put_conditions(alloc, &mut out, columns, conditions.as_slice())?;
    Ok(out)
}

fn deletion_tokens(
    alloc: Global,
    columns: &[Column],
    table: Token,
    conditions: &Items<Condition>,
) -> Result<Vec<Token>, AllocError>
    ensures { IfOk result (λ tokens. tokens.items ≡ action_tokens columns.now table (Action.Delete conditions.now)) }
{
    let mut out = Vec::new(alloc);
    out.push(Token::Fixed(Fixed::Delete))?;
    out.push(Token::Fixed(Fixed::From))?;
    out.push(table)?;
    put_conditions(alloc, &mut out, columns, conditions.as_slice())?;
    Ok(out)
}

fn tokens_of_statement(
    alloc: Global,
    tables: &[Table],
    statement: &Statement,
) -> Result<Vec<Token>, AllocError>
    ensures { IfOk result (λ tokens. tokens.items ≡ statement_tokens tables.now statement.now) }
{
    let table = table_of(alloc, tables, statement.table)?;
    let columns = columns_at(tables, statement.table as usize);
    match &statement.action {
        Action::Select(selection) => match &selection.join {
            None => selection_tokens(alloc, columns, table, selection),
            Some(join) => join_tokens(alloc, tables, statement.table, join, selection),
        },
        Action::Insert { values } => insertion_tokens(alloc, columns, table, values),
        Action::Update {
            assignments,
            conditions,
        } => change_tokens(alloc, columns, table, assignments, conditions),
        Action::Delete { conditions } => deletion_tokens(alloc, columns, table, conditions),
    }
}

/// The canonical text of a statement on these tables of a proxy, by whose numbers it names its tables
/// and columns: keywords in upper case, one space between tokens but none behind `(`, before `)` and
/// `,` or around `.`, integers without leading zeros, and bytes as `x'..'` in lower case. `compile` makes the
/// statement of it again, where the statement keeps the rules for these tables.
pub fn text_of(
    alloc: Global,
    tables: &[Table],
    statement: &Statement,
) -> Result<Items<u8>, AllocError>
    ensures is { IfOk result (λ text. text ≡ canonical tables.now statement.now) }
    ensures again { IfOk result (λ text. CompilesTo tables.now statement.now text) }
{
    let tokens = tokens_of_statement(alloc, tables, statement)?;
    Ok(Items::of(spelled(alloc, &tokens)?))
}
