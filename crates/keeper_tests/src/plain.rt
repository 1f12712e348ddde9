//! The rows of one table in a plain list, and what queries answer over it.

use crate::holding::MEMORY;
use crate::site::{query_at, tables_at};
use okws_base::value::{Row, Value};
use okws_plan::configuration::{Column, Config};
use okws_plan::meaning::{assigned_row, columns_at, fit, meets_every, new_row, selected, taken};
use okws_plan::statement::{Action, Answer, Assignment, Condition, Operand};
use std::alloc::Global;
use std::process::Abort;

/// The rows of the first table of the first proxy, in order of insertion.
#[derive(Drop)]
pub struct Plain {
    rows: Vec<Row>,
}

impl Plain {
    /// No rows.
    pub fn new(alloc: Global) -> Self {
        Plain {
            rows: Vec::new(alloc),
        }
    }

    /// What a query answers; nothing where there is none of this number, or its arguments are wrong.
    pub fn call(
        &mut self,
        rt: &impl Abort,
        alloc: Global,
        config: &Config,
        number: u16,
        args: &[Value],
    ) -> Option<Answer> {
        let query = query_at(config, number)?;
        if !fit(query.statement.parameters.as_slice(), args) {
            return None;
        }
        let columns = columns_at(tables_at(config), 0);
        Some(self.run(rt, alloc, columns, &query.statement.action, args))
    }

    fn run(
        &mut self,
        rt: &impl Abort,
        alloc: Global,
        columns: &[Column],
        action: &Action,
        args: &[Value],
    ) -> Answer {
        match action {
            Action::Select(selection) => {
                selected(alloc, args, selection, &self.rows).expect(rt, MEMORY)
            }
            Action::Insert { values } => self.insert(rt, alloc, columns, values.as_slice(), args),
            Action::Update {
                assignments,
                conditions,
            } => self.update(
                rt,
                alloc,
                assignments.as_slice(),
                conditions.as_slice(),
                args,
            ),
            Action::Delete { conditions } => self.delete(conditions.as_slice(), args),
        }
    }

    fn insert(
        &mut self,
        rt: &impl Abort,
        alloc: Global,
        columns: &[Column],
        values: &[Operand],
        args: &[Value],
    ) -> Answer {
        let new = new_row(alloc, args, values).expect(rt, MEMORY);
        if taken(columns, &self.rows, new.as_slice()) {
            return Answer::Duplicate;
        }
        self.rows.push(new).expect(rt, MEMORY);
        Answer::Changed(1)
    }

    fn update(
        &mut self,
        rt: &impl Abort,
        alloc: Global,
        assignments: &[Assignment],
        conditions: &[Condition],
        args: &[Value],
    ) -> Answer {
        let mut count = 0u64;
        for row in &mut self.rows {
            if meets_every(args, conditions, row.as_slice()) {
                *row = assigned_row(alloc, args, assignments, row).expect(rt, MEMORY);
                count = count.saturating_add(1);
            }
        }
        Answer::Changed(count)
    }

    fn delete(&mut self, conditions: &[Condition], args: &[Value]) -> Answer {
        let before = self.rows.len();
        self.rows
            .retain(|row| !meets_every(args, conditions, row.as_slice()));
        Answer::Changed(before.saturating_sub(self.rows.len()) as u64)
    }
}
