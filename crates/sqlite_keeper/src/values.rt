//! The values that the database is handed.

ghost use Rattle.std.specs.Prelude.{◌≡◌, ◌++◌, IfOk, map};
ghost use Rattle.sqlite.specs.Values.{bound, bound_value};
ghost use Rattle.sqlite.specs.Value.{owned};
ghost use Rattle.okws_plan.specs.Meaning.{operand};
ghost use Rattle.sqlite_keeper.specs.Values.{stored, conditions_values, assignments_values, operands_values, values_of};

use okws_base::value::Value;
use okws_plan::statement::{Action, Assignment, Condition, Operand};
use sqlite::types::ValueRef;
use std::alloc::{AllocError, Global};

fn lend(value: &Value) -> ValueRef<'_>
    ensures { bound_value (owned result) ≡ stored value.now }
{
    match value {
        Value::Int(n) => ValueRef::Int(*n),
        Value::Text(text) => ValueRef::Text(text.as_bytes()),
        Value::Bytes(bytes) => ValueRef::Blob(bytes.as_slice()),
    }
}

fn lend_operand<'a>(args: &'a [Value], given: &'a Operand) -> ValueRef<'a>
    ensures { bound_value (owned result) ≡ stored (operand args.now given.now) }
{
    match given {
        Operand::Parameter(n) => match args.get(n.saturating_sub(1) as usize) {
            Some(value) => lend(value),
            None => ValueRef::Int(0),
        },
        Operand::Literal(value) => lend(value),
    }
}

fn with_conditions<'a>(
    mut values: Vec<ValueRef<'a>>,
    args: &'a [Value],
    conditions: &'a [Condition],
) -> Result<Vec<ValueRef<'a>>, AllocError>
    ensures { IfOk result (λ v. bound v.items ≡ bound values.entry.items ++ conditions_values args.now conditions.now) }
{
    for condition in conditions {
        values.push(lend_operand(args, &condition.operand))?;
    }
    Ok(values)
}

fn of_assignments<'a>(
    alloc: Global,
    args: &'a [Value],
    assignments: &'a [Assignment],
) -> Result<Vec<ValueRef<'a>>, AllocError>
    ensures { IfOk result (λ v. bound v.items ≡ assignments_values args.now assignments.now) }
{
    let mut values = Vec::new(alloc);
    for assignment in assignments {
        values.push(lend_operand(args, &assignment.operand))?;
    }
    Ok(values)
}

fn of_operands<'a>(
    alloc: Global,
    args: &'a [Value],
    operands: &'a [Operand],
) -> Result<Vec<ValueRef<'a>>, AllocError>
    ensures { IfOk result (λ v. bound v.items ≡ operands_values args.now operands.now) }
{
    let mut values = Vec::new(alloc);
    for given in operands {
        values.push(lend_operand(args, given))?;
    }
    Ok(values)
}

/// The values of an action with these arguments, in the order of their places in its SQL.
pub(crate) fn values_of<'a>(
    alloc: Global,
    args: &'a [Value],
    action: &'a Action,
) -> Result<Vec<ValueRef<'a>>, AllocError>
    ensures { IfOk result (λ v. bound v.items ≡ values_of args.now action.now) }
{
    match action {
        Action::Select(selection) => with_conditions(
            Vec::new(alloc),
            args,
            selection.conditions.as_slice(),
        ),
        Action::Insert { values } => of_operands(alloc, args, values.as_slice()),
        Action::Update {
            assignments,
            conditions,
        } => {
            let values = of_assignments(alloc, args, assignments.as_slice())?;
            with_conditions(values, args, conditions.as_slice())
        }
        Action::Delete { conditions } => with_conditions(
            Vec::new(alloc),
            args,
            conditions.as_slice(),
        ),
    }
}

/// The values of a row.
pub(crate) fn row_values<'a>(
    alloc: Global,
    row: &'a [Value],
) -> Result<Vec<ValueRef<'a>>, AllocError>
    ensures { IfOk result (λ v. bound v.items ≡ map stored row.now) }
{
    let mut values = Vec::new(alloc);
    for value in row {
        values.push(lend(value))?;
    }
    Ok(values)
}
