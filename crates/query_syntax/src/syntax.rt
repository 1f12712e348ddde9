//! The syntax of statements: what stands where in a text, before tables are looked at.

use okws_base::items::Items;
use okws_base::value::Value;
use okws_plan::statement::Comparison;

/// A word in the place of a table or a column.
#[derive(Drop)]
pub struct Named {
    pub at: usize,
    pub name: Items<u8>,
}

/// A parameter by its number, or a literal.
#[derive(Drop)]
pub enum Written {
    Parameter(u64),
    Literal(Value),
}

/// A value at its place.
#[derive(Drop)]
pub struct Given {
    pub at: usize,
    pub value: Written,
}

/// A column that is set.
#[derive(Drop)]
pub struct Setting {
    pub column: Named,
    pub value: Given,
}

/// A condition.
#[derive(Drop)]
pub struct Test {
    pub column: Named,
    pub comparison: Comparison,
    pub value: Given,
}

/// A column behind the word of its table.
#[derive(Drop)]
pub struct Qualified {
    pub table: Named,
    pub column: Named,
}

/// A condition on joined rows.
#[derive(Drop)]
pub struct JoinTest {
    pub column: Qualified,
    pub comparison: Comparison,
    pub value: Given,
}

/// Two tables, and the columns that ON names, in the order in which they are written.
#[derive(Drop)]
pub struct Joined {
    pub table: Named,
    pub second: Named,
    pub left: Qualified,
    pub right: Qualified,
}

/// A SELECT from two tables.
#[derive(Drop)]
pub struct JoinSelect {
    pub columns: Items<Qualified>,
    pub joined: Joined,
    pub tests: Items<JoinTest>,
    pub order: Option<Qualified>,
    pub limit: Option<u32>,
}

/// A statement at one table, as it is written. `list` is the place of the `(` before an INSERT's columns.
#[derive(Drop)]
pub enum Form {
    Select {
        columns: Items<Named>,
        table: Named,
        tests: Items<Test>,
        order: Option<Named>,
        limit: Option<u32>,
    },
    Insert {
        table: Named,
        list: usize,
        columns: Items<Named>,
        values: Items<Given>,
    },
    Update {
        table: Named,
        settings: Items<Setting>,
        tests: Items<Test>,
    },
    Delete {
        table: Named,
        tests: Items<Test>,
    },
}

/// A query as it is written: a statement at one table, or a SELECT from two.
#[derive(Drop)]
pub enum Query {
    One(Form),
    Two(JoinSelect),
}
