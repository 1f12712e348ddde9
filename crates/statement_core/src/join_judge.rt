//! The rules of a SELECT from two tables.

ghost use Rattle.std.specs.Prelude.{◌≡◌, IfOk};
ghost use Rattle.statement_core.specs.Joining.{joined_word, words_of, is_neither, qualifier_judged, list_qualifiers_judged, test_qualifiers_judged, qualifiers_judged, kinds_differ, are_together, on_judged, pair_judged, join_judged_on};

use crate::excess::excess_of_join;
use crate::join_words::JoinWords;
use crate::judge::Judge;
use crate::scope::Scope;
use okws_base::value::Kind;
use plain_text::parts::is_same;
use query_syntax::error::TextRule;
use query_syntax::syntax::{JoinSelect, JoinTest, Joined, Qualified};
use std::alloc::{AllocError, Global};

/// Whether a column's table is neither of the two.
pub fn is_of_neither(joined: &Joined, column: &Qualified) -> bool
    ensures { result ≡ is_neither joined.now column.now }
{
    let table = column.table.name.as_slice();
    !(is_same(joined.table.name.as_slice(), table) || is_same(joined.second.name.as_slice(), table))
}

fn have_two_kinds(left: Option<Kind>, right: Option<Kind>) -> bool
    ensures { result ≡ kinds_differ left right }
{
    match (left, right) {
        (Some(left), Some(right)) => left != right,
        _ => false,
    }
}

fn are_of_one_table(width: usize, left: Option<u8>, right: Option<u8>) -> bool
    ensures { result ≡ are_together width left right }
{
    match (left, right) {
        (Some(left), Some(right)) => { (usize::from(left) < width) == (usize::from(right) < width) }
        _ => false,
    }
}

impl Judge {
    fn qualifier(&mut self, joined: &Joined, column: &Qualified)
        ensures { self.new ≡ qualifier_judged joined.now self.old column.now }
    {
        let is_neither = is_of_neither(joined, column);
        self.note(is_neither, column.table.at, TextRule::NoSuchTable);
    }

    fn list_qualifiers(&mut self, joined: &Joined, list: &[Qualified])
        ensures { self.new ≡ list_qualifiers_judged joined.now self.old list.now }
    {
        for column in list {
            self.qualifier(joined, column);
        }
    }

    fn test_qualifiers(&mut self, joined: &Joined, tests: &[JoinTest])
        ensures { self.new ≡ test_qualifiers_judged joined.now self.old tests.now }
    {
        for test in tests {
            self.qualifier(joined, &test.column);
        }
    }

    fn qualifiers(&mut self, select: &JoinSelect)
        ensures { self.new ≡ qualifiers_judged select.now self.old }
    {
        let joined = &select.joined;
        self.list_qualifiers(joined, select.columns.as_slice());
        self.qualifier(joined, &joined.left);
        self.qualifier(joined, &joined.right);
        self.test_qualifiers(joined, select.tests.as_slice());
        if let Some(column) = &select.order {
            self.qualifier(joined, column);
        }
    }

    /// The columns that ON names.
    fn on(&mut self, width: usize, scope: &Scope<'_>, joined: &Joined, words: &JoinWords)
        requires left { words.now.left ≡ joined_word joined.now.left }
        requires right { words.now.right ≡ joined_word joined.now.right }
        ensures { self.new ≡ on_judged width scope.now self.old joined.now }
    {
        let left = words.left.name.as_slice();
        let right = words.right.name.as_slice();
        let at = joined.right.table.at;
        self.word(scope, &words.left);
        self.word(scope, &words.right);
        let differ = have_two_kinds(scope.kind(left), scope.kind(right));
        self.note(differ, at, TextRule::JoinKinds);
        let is_one_side = are_of_one_table(width, scope.number(left), scope.number(right));
        self.note(is_one_side, at, TextRule::JoinSides);
    }

    /// The rules that a SELECT from two tables has beside those of one from joined rows.
    fn pair(
        &mut self,
        width: usize,
        is_one: bool,
        scope: &Scope<'_>,
        select: &JoinSelect,
        words: &JoinWords,
    )
        requires { words.now ≡ words_of select.now }
        ensures { self.new ≡ pair_judged width is_one scope.now self.old select.now }
    {
        self.on(width, scope, &select.joined, words);
        self.note(is_one, select.joined.second.at, TextRule::SelfJoin);
        self.qualifiers(select);
    }
}

/// What is found where all rules are tested on a SELECT from two tables, of which the first has so
/// many columns, and which may be one.
#[tactic(auto, unfolding(crate::specs::Joining::join_judged_on))]
pub fn judged_join(
    alloc: Global,
    width: usize,
    is_one: bool,
    scope: &Scope<'_>,
    select: &JoinSelect,
    words: &JoinWords,
) -> Result<Judge, AllocError>
    requires { words.now ≡ words_of select.now }
    ensures { IfOk result (λ judge. judge ≡ join_judged_on width is_one scope.now select.now) }
{
    let mut judge = Judge::new(alloc, scope.len())?;
    judge.selection(
        scope,
        words.list.as_slice(),
        words.tests.as_slice(),
        &words.order,
    );
    judge.pair(width, is_one, scope, select, words);
    judge.meet_fault(excess_of_join(select));
    Ok(judge)
}
