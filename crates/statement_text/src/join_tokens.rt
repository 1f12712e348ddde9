//! The tokens of a SELECT from two tables.

ghost use Rattle.std.specs.Prelude.{◌≡◌, ◌++◌, ◌∷◌, [], IfOk, OnOk, true};
ghost use Rattle.okws_plan.specs.Meaning.{columns_of};
ghost use Rattle.statement_core.specs.Canonical.{side_tokens, side_list_tokens, side_condition_tokens, side_order_tokens, sides_tokens, pair_tokens, table_token, column_token};
ghost use Rattle.query_syntax.specs.declared.token.Fixed.TheVariants.{Dot};

use crate::canonical::{column_of, operand_of, put_before, put_limit, sign_of, table_of, word_of};
use okws_plan::configuration::Table;
use okws_plan::statement::{Condition, Join, Selection};
use query_syntax::token::{Fixed, Token};
use statement_core::columns_at;
use std::alloc::{AllocError, Global};

/// The tables of joined rows, and the numbers of the first and of the second.
#[derive(Drop)]
struct Sides<'a> {
    tables: &'a [Table],
    first: u8,
    second: u8,
}

fn put_named(
    alloc: Global,
    out: &mut Vec<Token>,
    tables: &[Table],
    table: u8,
    column: u8,
) -> Result<(), AllocError>
    ensures { OnOk result (out.new.items ≡ out.old.items ++ table_token tables.now table ∷ Token.Fixed Dot ∷ column_token (columns_of tables.now table) column ∷ []) }
{
    out.push(table_of(alloc, tables, table)?)?;
    out.push(Token::Fixed(Fixed::Dot))?;
    out.push(column_of(alloc, columns_at(tables, table as usize), column)?)?;
    Ok(())
}

fn put_side(
    alloc: Global,
    out: &mut Vec<Token>,
    sides: &Sides<'_>,
    column: u8,
) -> Result<(), AllocError>
    ensures { OnOk result (out.new.items ≡ out.old.items ++ side_tokens sides.now.tables.now sides.now.first sides.now.second column) }
{
    let width = columns_at(sides.tables, sides.first as usize).len();
    if (column as usize) < width {
        put_named(alloc, out, sides.tables, sides.first, column)
    } else {
        let place = (column as usize - width) as u8;
        put_named(alloc, out, sides.tables, sides.second, place)
    }
}

fn put_side_list(
    alloc: Global,
    out: &mut Vec<Token>,
    sides: &Sides<'_>,
    list: &[u8],
) -> Result<(), AllocError>
    ensures { OnOk result (out.new.items ≡ out.old.items ++ side_list_tokens (side_tokens sides.now.tables.now sides.now.first sides.now.second) true list.now) }
{
    for i in 0..list.len() {
        put_before(out, i == 0, Fixed::Comma)?;
        put_side(alloc, out, sides, list[i])?;
    }
    Ok(())
}

fn put_side_conditions(
    alloc: Global,
    out: &mut Vec<Token>,
    sides: &Sides<'_>,
    conditions: &[Condition],
) -> Result<(), AllocError>
    ensures { OnOk result (out.new.items ≡ out.old.items ++ side_condition_tokens (side_tokens sides.now.tables.now sides.now.first sides.now.second) true conditions.now) }
{
    for i in 0..conditions.len() {
        let word = if i == 0 { Fixed::Where } else { Fixed::And };
        out.push(Token::Fixed(word))?;
        put_side(alloc, out, sides, conditions[i].column)?;
        out.push(Token::Fixed(sign_of(conditions[i].comparison)))?;
        out.push(operand_of(alloc, &conditions[i].operand)?)?;
    }
    Ok(())
}

fn put_side_order(
    alloc: Global,
    out: &mut Vec<Token>,
    sides: &Sides<'_>,
    order: Option<u8>,
) -> Result<(), AllocError>
    ensures { OnOk result (out.new.items ≡ out.old.items ++ side_order_tokens (side_tokens sides.now.tables.now sides.now.first sides.now.second) order) }
{
    if let Some(column) = order {
        out.push(Token::Fixed(Fixed::Order))?;
        out.push(Token::Fixed(Fixed::By))?;
        put_side(alloc, out, sides, column)?;
    }
    Ok(())
}

/// FROM t JOIN u ON t.c = u.d
fn put_sides(
    alloc: Global,
    out: &mut Vec<Token>,
    sides: &Sides<'_>,
    join: &Join,
) -> Result<(), AllocError>
    ensures { OnOk result (out.new.items ≡ out.old.items ++ sides_tokens (side_tokens sides.now.tables.now sides.now.first sides.now.second) (table_token sides.now.tables.now sides.now.first) (table_token sides.now.tables.now sides.now.second) join.now) }
{
    out.push(Token::Fixed(Fixed::From))?;
    out.push(table_of(alloc, sides.tables, sides.first)?)?;
    out.push(word_of(alloc, b"JOIN")?)?;
    out.push(table_of(alloc, sides.tables, sides.second)?)?;
    out.push(word_of(alloc, b"ON")?)?;
    put_side(alloc, out, sides, join.left)?;
    out.push(Token::Fixed(Fixed::Equal))?;
    put_side(alloc, out, sides, join.right)
}

/// The tokens of a SELECT from two tables, of which the first has this number.
pub fn join_tokens(
    alloc: Global,
    tables: &[Table],
    first: u8,
    join: &Join,
    selection: &Selection,
) -> Result<Vec<Token>, AllocError>
    ensures { IfOk result (λ tokens. tokens.items ≡ pair_tokens (side_tokens tables.now first join.now.table) (table_token tables.now first) (table_token tables.now join.now.table) join.now selection.now) }
{
    let sides = Sides {
        tables,
        first,
        second: join.table,
    };
    let mut out = Vec::new(alloc);
    out.push(Token::Fixed(Fixed::Select))?;
    put_side_list(alloc, &mut out, &sides, selection.columns.as_slice())?;
    put_sides(alloc, &mut out, &sides, join)?;
    put_side_conditions(alloc, &mut out, &sides, selection.conditions.as_slice())?;
    put_side_order(alloc, &mut out, &sides, selection.order)?;
    put_limit(&mut out, selection.limit)?;
    Ok(out)
}
