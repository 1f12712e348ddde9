//! From the syntax of a statement to what it does, with columns by number.

ghost use Rattle.std.specs.Prelude.{◌≡◌, IfOk, map, option_map};
ghost use Rattle.statement_core.specs.Joining.{selection_of_words};
ghost use Rattle.statement_core.specs.Resolving.{short, or_zero, number, operand_of, condition_of, assignment_of, selection_of, action_of};

use crate::join_words::JoinWords;
use crate::scope::Scope;
use okws_base::items::{Exact, Items};
use okws_plan::configuration::Column;
use okws_plan::statement::{Action, Assignment, Condition, Join, Operand, Selection};
use query_syntax::syntax::{Form, Given, Named, Setting, Test, Written};
use std::alloc::{AllocError, Global};

fn column_byte(scope: &Scope<'_>, word: &Named) -> u8
    ensures { result ≡ number scope.now word.now }
{
    scope.number(word.name.as_slice()).unwrap_or(0)
}

fn parameter_byte(number: u64) -> u8
    ensures { result ≡ or_zero (short number) }
{
    if number < 256 { number as u8 } else { 0 }
}

fn operand(alloc: Global, written: &Written) -> Result<Operand, AllocError>
    ensures { IfOk result (λ operand. operand ≡ operand_of written.now) }
{
    Ok(match written {
        Written::Literal(value) => Operand::Literal(value.copy(alloc)?),
        Written::Parameter(number) => Operand::Parameter(parameter_byte(*number)),
    })
}

fn condition(alloc: Global, scope: &Scope<'_>, test: &Test) -> Result<Condition, AllocError>
    ensures { IfOk result (λ condition. condition ≡ condition_of scope.now test.now) }
{
    Ok(Condition {
        column: column_byte(scope, &test.column),
        comparison: test.comparison,
        operand: operand(alloc, &test.value.value)?,
    })
}

fn assignment(
    alloc: Global,
    columns: &[Column],
    setting: &Setting,
) -> Result<Assignment, AllocError>
    ensures { IfOk result (λ assignment. assignment ≡ assignment_of columns.now setting.now) }
{
    Ok(Assignment {
        column: column_byte(&Scope::plain(columns), &setting.column),
        operand: operand(alloc, &setting.value.value)?,
    })
}

fn column_bytes(alloc: Global, scope: &Scope<'_>, words: &[Named]) -> Result<Items<u8>, AllocError>
    ensures { IfOk result (λ numbers. numbers ≡ map (number scope.now) words.now) }
{
    let mut out = Vec::new(alloc);
    for word in words {
        out.push(column_byte(scope, word))?;
    }
    Ok(Items::of(out))
}

fn conditions(
    alloc: Global,
    scope: &Scope<'_>,
    tests: &[Test],
) -> Result<Items<Condition>, AllocError>
    ensures { IfOk result (λ conditions. conditions ≡ map (condition_of scope.now) tests.now) }
{
    let mut out = Vec::new(alloc);
    for test in tests {
        out.push(condition(alloc, scope, test)?)?;
    }
    Ok(Items::of(out))
}

fn assignments(
    alloc: Global,
    columns: &[Column],
    settings: &[Setting],
) -> Result<Items<Assignment>, AllocError>
    ensures { IfOk result (λ assignments. assignments ≡ map (assignment_of columns.now) settings.now) }
{
    let mut out = Vec::new(alloc);
    for setting in settings {
        out.push(assignment(alloc, columns, setting)?)?;
    }
    Ok(Items::of(out))
}

fn operands(alloc: Global, values: &[Given]) -> Result<Items<Operand>, AllocError>
    ensures { IfOk result (λ operands. operands ≡ map (λ given. operand_of given.value) values.now) }
{
    let mut out = Vec::new(alloc);
    for given in values {
        out.push(operand(alloc, &given.value)?)?;
    }
    Ok(Items::of(out))
}

fn order_byte(scope: &Scope<'_>, order: &Option<Named>) -> Option<u8>
    ensures { result ≡ option_map (number scope.now) order.now }
{
    match order {
        None => None,
        Some(word) => Some(column_byte(scope, word)),
    }
}

fn selection(
    alloc: Global,
    scope: &Scope<'_>,
    list: &Items<Named>,
    tests: &Items<Test>,
    order: &Option<Named>,
    limit: Option<u32>,
) -> Result<Selection, AllocError>
    ensures { IfOk result (λ selection. selection ≡ selection_of scope.now list.now tests.now order.now limit) }
{
    Ok(Selection {
        join: None,
        columns: column_bytes(alloc, scope, list.as_slice())?,
        conditions: conditions(alloc, scope, tests.as_slice())?,
        order: order_byte(scope, order),
        limit,
    })
}

/// What these words select of joined rows, where the second table has this number.
pub fn join_selection(
    alloc: Global,
    scope: &Scope<'_>,
    second: u8,
    limit: Option<u32>,
    words: &JoinWords,
) -> Result<Selection, AllocError>
    ensures { IfOk result (λ selection. selection ≡ selection_of_words scope.now second limit words.now) }
{
    let join = Join {
        table: second,
        left: column_byte(scope, &words.left),
        right: column_byte(scope, &words.right),
    };
    Ok(Selection {
        join: Some(join),
        columns: column_bytes(alloc, scope, words.list.as_slice())?,
        conditions: conditions(alloc, scope, words.tests.as_slice())?,
        order: order_byte(scope, &words.order),
        limit,
    })
}

/// What a form does at a table of these columns.
pub fn action_on(alloc: Global, columns: &[Column], form: &Form) -> Result<Action, AllocError>
    ensures { IfOk result (λ action. action ≡ action_of columns.now form.now) }
{
    match form {
        Form::Select {
            columns: list,
            tests,
            order,
            limit,
            ..
        } => {
            let scope = Scope::plain(columns);
            let selection = selection(alloc, &scope, list, tests, order, *limit)?;
            Ok(Action::Select(selection))
        }
        Form::Insert { values, .. } => {
            let values = operands(alloc, values.as_slice())?;
            Ok(Action::Insert { values })
        }
        Form::Update {
            settings,
            tests,
            ..
        } => {
            let assignments = assignments(alloc, columns, settings.as_slice())?;
            let conditions = conditions(alloc, &Scope::plain(columns), tests.as_slice())?;
            Ok(Action::Update {
                assignments,
                conditions,
            })
        }
        Form::Delete { tests, .. } => {
            let conditions = conditions(alloc, &Scope::plain(columns), tests.as_slice())?;
            Ok(Action::Delete { conditions })
        }
    }
}
