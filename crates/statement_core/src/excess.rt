//! Lists that have a part too many.

ghost use Rattle.std.specs.Prelude.{◌≡◌, option_map, slice_get};
ghost use Rattle.statement_core.specs.Joining.{join_excess};
ghost use Rattle.statement_core.specs.Resolving.{too_many, list_excess, tests_excess, parts_excess};

use crate::earliest::earlier_of_both;
use okws_base::limit::{MOST_COLUMNS, MOST_CONDITIONS};
use query_syntax::error::{Refusal, TextRule};
use query_syntax::syntax::{Form, JoinSelect, JoinTest, Named, Qualified, Test};

fn too_many_at(at: usize) -> Refusal
    ensures { result ≡ too_many at }
{
    Refusal {
        at,
        rule: TextRule::TooManyParts,
    }
}

fn excess_of_list(list: &[Named]) -> Option<Refusal>
    ensures { result ≡ list_excess list.now }
{
    match list.get(MOST_COLUMNS) {
        None => None,
        Some(word) => Some(too_many_at(word.at)),
    }
}

fn excess_of_tests(tests: &[Test]) -> Option<Refusal>
    ensures { result ≡ tests_excess tests.now }
{
    match tests.get(MOST_CONDITIONS) {
        None => None,
        Some(test) => Some(too_many_at(test.column.at)),
    }
}

/// The first item of a SELECT list, or the first condition, that is one too many.
pub fn excess_of(form: &Form) -> Option<Refusal>
    ensures { result ≡ parts_excess form.now }
{
    match form {
        Form::Select { columns, tests, .. } => earlier_of_both(
            excess_of_list(columns.as_slice()),
            excess_of_tests(tests.as_slice()),
        ),
        Form::Insert { .. } => None,
        Form::Update { tests, .. } => excess_of_tests(tests.as_slice()),
        Form::Delete { tests, .. } => excess_of_tests(tests.as_slice()),
    }
}

fn excess_of_qualified(list: &[Qualified]) -> Option<Refusal>
    ensures { result ≡ option_map (λ q. too_many q.table.at) (slice_get list.now MOST_COLUMNS) }
{
    match list.get(MOST_COLUMNS) {
        None => None,
        Some(column) => Some(too_many_at(column.table.at)),
    }
}

fn excess_of_join_tests(tests: &[JoinTest]) -> Option<Refusal>
    ensures { result ≡ option_map (λ t. too_many t.column.table.at) (slice_get tests.now MOST_CONDITIONS) }
{
    match tests.get(MOST_CONDITIONS) {
        None => None,
        Some(test) => Some(too_many_at(test.column.table.at)),
    }
}

/// The first item or condition of a SELECT from two tables that is one too many.
pub fn excess_of_join(select: &JoinSelect) -> Option<Refusal>
    ensures { result ≡ join_excess select.now }
{
    earlier_of_both(
        excess_of_qualified(select.columns.as_slice()),
        excess_of_join_tests(select.tests.as_slice()),
    )
}
