//! Whether two statements are the same, part by part.

ghost use Rattle.std.specs.Prelude.{◌≡◌};
ghost use Rattle.config_diff.specs.Sameness.{comparison_number, same_operand, same_condition, same_assignment, same_join, same_selection, same_action, same_statement};

use crate::same::{Same, all_same, same_option};
use okws_plan::statement::{
    Action, Assignment, Comparison, Condition, Join, Operand, Selection, Statement,
};

impl Same for Operand {
    ghost same = { same_operand };

    fn same(&self, other: &Operand) -> bool {
        match (self, other) {
            (Operand::Parameter(n), Operand::Parameter(m)) => *n == *m,
            (Operand::Literal(v), Operand::Literal(w)) => v == w,
            _ => false,
        }
    }
}

/// The number of a comparison, each its own.
fn comparison_number(a: Comparison) -> u8
    ensures { result ≡ comparison_number a }
{
    match a {
        Comparison::Equal => 0,
        Comparison::Differs => 1,
        Comparison::Below => 2,
        Comparison::AtMost => 3,
        Comparison::Above => 4,
        Comparison::AtLeast => 5,
    }
}

impl Same for Condition {
    ghost same = { same_condition };

    fn same(&self, other: &Condition) -> bool {
        self.column == other.column
            && comparison_number(self.comparison) == comparison_number(other.comparison)
            && self.operand.same(&other.operand)
    }
}

impl Same for Assignment {
    ghost same = { same_assignment };

    fn same(&self, other: &Assignment) -> bool {
        self.column == other.column && self.operand.same(&other.operand)
    }
}

impl Same for Join {
    ghost same = { same_join };

    fn same(&self, other: &Join) -> bool {
        self.table == other.table && self.left == other.left && self.right == other.right
    }
}

fn same_selection(a: &Selection, b: &Selection) -> bool
    ensures { result ≡ same_selection a.now b.now }
{
    same_option(&a.join, &b.join)
        && a.columns.as_slice() == b.columns.as_slice()
        && all_same(a.conditions.as_slice(), b.conditions.as_slice())
        && same_option(&a.order, &b.order)
        && same_option(&a.limit, &b.limit)
}

fn same_action(a: &Action, b: &Action) -> bool
    ensures { result ≡ same_action a.now b.now }
{
    match (a, b) {
        (Action::Select(x), Action::Select(y)) => same_selection(x, y),
        (Action::Insert { values: x }, Action::Insert { values: y }) => {
            all_same(x.as_slice(), y.as_slice())
        }
        (
            Action::Update {
                assignments: x,
                conditions: c,
            },
            Action::Update {
                assignments: y,
                conditions: d,
            },
        ) => all_same(x.as_slice(), y.as_slice()) && all_same(c.as_slice(), d.as_slice()),
        (Action::Delete { conditions: c }, Action::Delete { conditions: d }) => {
            all_same(c.as_slice(), d.as_slice())
        }
        _ => false,
    }
}

impl Same for Statement {
    ghost same = { same_statement };

    fn same(&self, other: &Statement) -> bool {
        self.table == other.table
            && all_same(self.parameters.as_slice(), other.parameters.as_slice())
            && same_action(&self.action, &other.action)
    }
}
