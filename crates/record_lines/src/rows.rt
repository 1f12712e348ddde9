//! The rows of a proxy, and what its queries answer.

use crate::answers::call_denial;
use crate::case::Case;
use crate::plain::{At, Deed, Line};
use okws_base::items::{Exact, copies};
use okws_base::value::{Row, Value};
use okws_plan::configuration::{Config, Query, Table};
use okws_plan::meaning::{assigned_row, columns_at, joined, meets_every, new_row, selected, taken};
use okws_plan::statement::{Action, Answer, Condition, Operand, Statement};
use std::alloc::{AllocError, Global};

/// The tables of a proxy.
fn tables_at(site: &Config, at: At) -> &[Table] {
    let At::Proxy(proxy) = at else { return &[] };
    match site.proxies.as_slice().get(usize::from(proxy)) {
        Some(plan) => plan.tables.as_slice(),
        None => &[],
    }
}

/// The query of a proxy that a call names.
pub fn query_of<'c>(site: &'c Config, line: &Line<'_>) -> Option<&'c Query> {
    let At::Proxy(proxy) = line.at else {
        return None;
    };
    let plan = site.proxies.as_slice().get(usize::from(proxy))?;
    for query in plan.queries.as_slice() {
        if query.number == line.query {
            return Some(query);
        }
    }
    None
}

/// How many rows meet the conditions.
fn hits(args: &[Value], conditions: &[Condition], rows: &[Row]) -> u64 {
    let mut count = 0u64;
    for row in rows {
        if meets_every(args, conditions, row.as_slice()) {
            count = count.saturating_add(1);
        }
    }
    count
}

/// What a statement answers on the rows that it reads: those of its table, or joined rows.
fn answer_on(
    alloc: Global,
    tables: &[Table],
    statement: &Statement,
    args: &[Value],
    rows: &[Row],
) -> Result<Answer, AllocError> {
    match &statement.action {
        Action::Select(selection) => selected(alloc, args, selection, rows),
        Action::Insert { values } => {
            let columns = columns_at(tables, usize::from(statement.table));
            let row = new_row(alloc, args, values.as_slice())?;
            let is_taken = taken(columns, rows, row.as_slice());
            Ok(if is_taken {
                Answer::Duplicate
            } else {
                Answer::Changed(1)
            })
        }
        Action::Update { conditions, .. } | Action::Delete { conditions } => {
            Ok(Answer::Changed(hits(args, conditions.as_slice(), rows)))
        }
    }
}

/// The rows behind an insertion.
fn inserted(
    alloc: Global,
    tables: &[Table],
    statement: &Statement,
    args: &[Value],
    values: &[Operand],
    rows: &[Row],
) -> Result<Vec<Row>, AllocError> {
    let columns = columns_at(tables, usize::from(statement.table));
    let row = new_row(alloc, args, values)?;
    let is_taken = taken(columns, rows, row.as_slice());
    let mut after = copies(alloc, rows)?;
    if !is_taken {
        after.push(row)?;
    }
    Ok(after)
}

/// The rows that a statement leaves of its table.
fn rows_behind(
    alloc: Global,
    tables: &[Table],
    statement: &Statement,
    args: &[Value],
    rows: &[Row],
) -> Result<Vec<Row>, AllocError> {
    let mut after = Vec::new(alloc);
    match &statement.action {
        Action::Select(_) => return copies(alloc, rows),
        Action::Insert { values } => {
            return inserted(alloc, tables, statement, args, values.as_slice(), rows);
        }
        Action::Update {
            assignments,
            conditions,
        } => {
            for row in rows {
                after.push(if meets_every(args, conditions.as_slice(), row.as_slice()) {
                    assigned_row(alloc, args, assignments.as_slice(), row)?
                } else {
                    row.copy(alloc)?
                })?;
            }
        }
        Action::Delete { conditions } => {
            for row in rows {
                if !meets_every(args, conditions.as_slice(), row.as_slice()) {
                    after.push(row.copy(alloc)?)?;
                }
            }
        }
    }
    Ok(after)
}

/// Whether a call that stands behind these lines changed rows of this table.
fn changes(site: &Config, before: &[Line<'_>], line: &Line<'_>, table: u8) -> bool {
    let writes = match query_of(site, line) {
        Some(query) => {
            query.statement.table == table && !matches!(query.statement.action, Action::Select(_))
        }
        None => false,
    };
    line.deed == Deed::Call && writes && !line.failed && call_denial(site, before, line).is_none()
}

/// The rows that the calls of these lines leave of a table.
fn rows_of(
    case: &Case<'_, '_>,
    tables: &[Table],
    lines: &[Line<'_>],
    table: u8,
) -> Result<Vec<Row>, AllocError> {
    let mut rows = match tables.get(usize::from(table)) {
        Some(table) => copies(case.alloc, table.first.as_slice())?,
        None => Vec::new(case.alloc),
    };
    for (place, line) in lines.iter().enumerate() {
        let before = lines.get(..place).unwrap_or(&[]);
        if changes(case.site, before, line, table)
            && let Some(query) = query_of(case.site, line)
        {
            rows = rows_behind(case.alloc, tables, &query.statement, line.args, &rows)?;
        }
    }
    Ok(rows)
}

/// What an allowed call answers that is entered behind these lines of its proxy.
pub fn answer_to(
    case: &Case<'_, '_>,
    before: &[Line<'_>],
    line: &Line<'_>,
    query: &Query,
) -> Result<Answer, AllocError> {
    let tables = tables_at(case.site, line.at);
    let statement = &query.statement;
    let rows = rows_read(case, tables, before, statement)?;
    answer_on(case.alloc, tables, statement, line.args, &rows)
}

/// The rows that a statement reads behind these lines.
fn rows_read(
    case: &Case<'_, '_>,
    tables: &[Table],
    before: &[Line<'_>],
    statement: &Statement,
) -> Result<Vec<Row>, AllocError> {
    let rows = rows_of(case, tables, before, statement.table)?;
    let Action::Select(selection) = &statement.action else {
        return Ok(rows);
    };
    let Some(join) = &selection.join else {
        return Ok(rows);
    };
    let width = columns_at(tables, usize::from(statement.table)).len();
    let others = rows_of(case, tables, before, join.table)?;
    joined(case.alloc, width, join, &rows, &others)
}
