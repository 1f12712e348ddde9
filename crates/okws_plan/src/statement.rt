//! Statements of the query language, as they are compiled. Tables, columns and parameters stand by number.

use okws_base::items::Items;
use okws_base::value::{Kind, Row, Value};

/// A value of a statement: a parameter by its number from 1, or a literal.
pub enum Operand {
    Parameter(u8),
    Literal(Value),
}

impl Drop for Operand {
    fn drop(self) {
        match self {
            Operand::Parameter(_) => {}
            Operand::Literal(it) => drop(it),
        }
    }
}

/// How a condition compares: `=`, `<>`, `<`, `<=`, `>`, `>=`.
#[derive(Clone, Copy)]
pub enum Comparison {
    Equal,
    Differs,
    Below,
    AtMost,
    Above,
    AtLeast,
}

/// A column compared with an operand.
pub struct Condition {
    pub column: u8,
    pub comparison: Comparison,
    pub operand: Operand,
}

impl Drop for Condition {
    fn drop(self) {
        let Condition {
            column: _,
            comparison: _,
            operand,
        } = self;
        drop(operand);
    }
}

/// A column that is set.
pub struct Assignment {
    pub column: u8,
    pub operand: Operand,
}

impl Drop for Assignment {
    fn drop(self) {
        let Assignment { column: _, operand } = self;
        drop(operand);
    }
}

/// A second table, and the two columns in which a row of the first table and one of the second are
/// equal where they are joined to one row. The columns of such a row are numbered on: those of the
/// first table, then those of the second. `left` and `right` stand in the order in which ON names them.
#[derive(Clone, Copy, PartialEq, Eq)]
pub struct Join {
    pub table: u8,
    pub left: u8,
    pub right: u8,
}

/// What a SELECT lists of the rows that meet all its conditions, by which column they are ordered,
/// if by any, and how many come at the most. The rows are those of its table, or those that its
/// table's rows are joined to with the rows of a second one.
pub struct Selection {
    pub join: Option<Join>,
    pub columns: Items<u8>,
    pub conditions: Items<Condition>,
    pub order: Option<u8>,
    pub limit: Option<u32>,
}

impl Drop for Selection {
    fn drop(self) {
        let Selection {
            join: _,
            columns,
            conditions,
            order: _,
            limit: _,
        } = self;
        drop(columns);
        drop(conditions);
    }
}

/// What a statement does at its table. A SELECT may read a second one.
pub enum Action {
    Select(Selection),
    Insert {
        values: Items<Operand>,
    },
    Update {
        assignments: Items<Assignment>,
        conditions: Items<Condition>,
    },
    Delete {
        conditions: Items<Condition>,
    },
}

impl Drop for Action {
    fn drop(self) {
        match self {
            Action::Select(it) => drop(it),
            Action::Insert { values } => {
                drop(values);
            }
            Action::Update {
                assignments,
                conditions,
            } => {
                drop(assignments);
                drop(conditions);
            }
            Action::Delete { conditions } => {
                drop(conditions);
            }
        }
    }
}

/// A statement over a table, and the kinds of its parameters.
pub struct Statement {
    pub table: u8,
    pub parameters: Items<Kind>,
    pub action: Action,
}

impl Drop for Statement {
    fn drop(self) {
        let Statement {
            table: _,
            parameters,
            action,
        } = self;
        drop(parameters);
        drop(action);
    }
}

/// What a statement answers: rows, each of so many columns; how many rows met the conditions, or 1
/// for a row that was inserted; or that the KEY value of a new row was taken.
#[derive(PartialEq, Eq, Drop)]
pub enum Answer {
    Rows { columns: usize, rows: Items<Row> },
    Changed(u64),
    Duplicate,
}
