//! The rules that speak of a table's columns, of kinds, parameters and counts.

ghost use Rattle.std.specs.Prelude.{◌≡◌, Option, Some, None, IfOk, map, slice_get, is_some};
ghost use Rattle.std.specs.List.{list_any};
ghost use Rattle.statement_core.specs.Resolving.{noted, short, word_judged, words_judged, is_numbered, is_other, first_kind, kind_met, met_by, parameter_judged, written_judged, value_judged, test_judged, tests_judged, is_taken, taken_by, target_judged, setting_judged, settings_judged, are_columns, list_judged, kind_at, values_judged, order_judged, columns_judged, parts_excess, parts_judged, besides, nothing_found, has_gap, parameters, fault_of, judged_on};

use crate::earliest::{earlier_found, earlier_of_both};
use crate::excess::excess_of;
use crate::lookup::{is_key_named, kind_named, kind_of_column, number_in_table};
use crate::scope::Scope;
use okws_base::items::Items;
use okws_base::limit::MOST_PARAMETERS;
use okws_base::value::Kind;
use okws_plan::configuration::Column;
use plain_text::parts::is_same;
use query_syntax::error::{Refusal, TextRule};
use query_syntax::syntax::{Form, Given, Named, Setting, Test, Written};
use std::alloc::{AllocError, Global};
use std::marker::Model;

/// What was found while the rules are tested.
#[derive(Drop)]
pub struct Judge {
    met: Vec<Option<Kind>>,
    taken: Vec<bool>,
    fault: Option<Refusal>,
}

impl Model for Judge {
    ghost use Rattle.statement_core.specs.Resolving.{Judged};

    ghost Value = { Judged };

    ghost view = { λ a. record { met = a.met.items; taken = a.taken.items; fault = a.fault } };
}

fn is_other_kind(kind: Kind, first: Option<Kind>) -> bool
    ensures { result ≡ is_other kind first }
{
    match first {
        None => false,
        Some(first) => first != kind,
    }
}

impl Judge {
    pub fn new(alloc: Global, columns: usize) -> Result<Judge, AllocError>
        ensures { IfOk result (λ j. j ≡ nothing_found columns) }
    {
        Ok(Judge {
            met: vec![in alloc; None; MOST_PARAMETERS]?,
            taken: vec![in alloc; false; columns]?,
            fault: None,
        })
    }

    pub fn note(&mut self, is_broken: bool, at: usize, rule: TextRule)
        ensures { self.new ≡ noted self.old is_broken at rule }
    {
        if is_broken {
            self.fault = earlier_found(self.fault, Refusal { at, rule });
        }
    }

    fn first_kind_of(&self, parameter: u64) -> Option<Kind>
        ensures { result ≡ kind_met self.now parameter }
    {
        let place = parameter.saturating_sub(1) as usize;
        if place < self.met.len() {
            self.met[place]
        } else {
            None
        }
    }

    fn meet(&mut self, kind: Kind, parameter: u64)
        ensures { self.new ≡ met_by self.old kind parameter }
    {
        let first = self.first_kind_of(parameter).unwrap_or(kind);
        let place = parameter.saturating_sub(1) as usize;
        if place < self.met.len() {
            self.met[place] = Some(first);
        }
    }

    fn parameter(&mut self, kind: Kind, at: usize, number: u64)
        ensures { self.new ≡ parameter_judged self.old kind at number }
    {
        if number >= 1 && number <= MOST_PARAMETERS as u64 {
            let is_other = is_other_kind(kind, self.first_kind_of(number));
            self.note(is_other, at, TextRule::ParameterKind);
            self.meet(kind, number);
        } else {
            self.note(true, at, TextRule::ParameterGap);
        }
    }

    fn value(&mut self, kind: Option<Kind>, given: &Given)
        ensures { self.new ≡ value_judged self.old kind given.now }
    {
        if let Some(kind) = kind {
            match &given.value {
                Written::Literal(value) => {
                    self.note(value.kind() != kind, given.at, TextRule::KindMismatch);
                }
                Written::Parameter(number) => self.parameter(kind, given.at, *number),
            }
        }
    }

    pub fn word(&mut self, scope: &Scope<'_>, word: &Named)
        ensures { self.new ≡ word_judged scope.now self.old word.now }
    {
        let number = scope.number(word.name.as_slice());
        self.note(number.is_none(), word.at, TextRule::NoSuchColumn);
    }

    fn words(&mut self, scope: &Scope<'_>, words: &[Named])
        ensures { self.new ≡ words_judged scope.now self.old words.now }
    {
        for word in words {
            self.word(scope, word);
        }
    }

    fn test(&mut self, scope: &Scope<'_>, test: &Test)
        ensures { self.new ≡ test_judged scope.now self.old test.now }
    {
        self.word(scope, &test.column);
        let kind = scope.kind(test.column.name.as_slice());
        self.value(kind, &test.value);
    }

    fn tests(&mut self, scope: &Scope<'_>, tests: &[Test])
        ensures { self.new ≡ tests_judged scope.now self.old tests.now }
    {
        for test in tests {
            self.test(scope, test);
        }
    }

    fn is_set(&self, column: Option<u8>) -> bool
        ensures { result ≡ is_taken self.now column }
    {
        match column {
            None => false,
            Some(n) => {
                if (n as usize) < self.taken.len() {
                    self.taken[n as usize]
                } else {
                    false
                }
            }
        }
    }

    fn set(&mut self, column: Option<u8>)
        ensures { self.new ≡ taken_by self.old column }
    {
        if let Some(n) = column {
            if (n as usize) < self.taken.len() {
                self.taken[n as usize] = true;
            }
        }
    }

    fn target(&mut self, columns: &[Column], word: &Named)
        ensures { self.new ≡ target_judged columns.now self.old word.now }
    {
        let number = number_in_table(columns, word.name.as_slice());
        self.word(&Scope::plain(columns), word);
        self.note(
            is_key_named(columns, word.name.as_slice()),
            word.at,
            TextRule::KeySet,
        );
        self.note(self.is_set(number), word.at, TextRule::ColumnTwice);
        self.set(number);
    }

    fn setting(&mut self, columns: &[Column], setting: &Setting)
        ensures { self.new ≡ setting_judged columns.now self.old setting.now }
    {
        self.target(columns, &setting.column);
        let kind = kind_named(columns, setting.column.name.as_slice());
        self.value(kind, &setting.value);
    }

    fn settings(&mut self, columns: &[Column], settings: &[Setting])
        ensures { self.new ≡ settings_judged columns.now self.old settings.now }
    {
        for setting in settings {
            self.setting(columns, setting);
        }
    }

    fn list(&mut self, columns: &[Column], at: usize, words: &[Named], values: &[Given])
        ensures { self.new ≡ list_judged columns.now self.old at words.now values.now }
    {
        let is_whole = are_in_order(columns, words) && values.len() == columns.len();
        self.note(!is_whole, at, TextRule::InsertColumns);
    }

    fn values(&mut self, columns: &[Column], values: &[Given])
        ensures { self.new ≡ values_judged columns.now 0 self.old values.now }
    {
        for i in 0..values.len() {
            self.value(kind_of_column(columns, i), &values[i]);
        }
    }

    fn columns(&mut self, columns: &[Column], form: &Form)
        ensures { self.new ≡ columns_judged columns.now self.old form.now }
    {
        match form {
            Form::Select {
                columns: list,
                tests,
                order,
                ..
            } => {
                self.selection(
                    &Scope::plain(columns),
                    list.as_slice(),
                    tests.as_slice(),
                    order,
                );
            }
            Form::Insert {
                list,
                columns: words,
                values,
                ..
            } => {
                self.list(columns, *list, words.as_slice(), values.as_slice());
                self.words(&Scope::plain(columns), words.as_slice());
                self.values(columns, values.as_slice());
            }
            Form::Update {
                settings,
                tests,
                ..
            } => {
                self.settings(columns, settings.as_slice());
                self.tests(&Scope::plain(columns), tests.as_slice());
            }
            Form::Delete { tests, .. } => self.tests(&Scope::plain(columns), tests.as_slice()),
        }
    }

    fn order(&mut self, scope: &Scope<'_>, order: &Option<Named>)
        ensures { self.new ≡ order_judged scope.now self.old order.now }
    {
        if let Some(word) = order {
            self.word(scope, word);
        }
    }

    /// The columns and values of a SELECT.
    pub fn selection(
        &mut self,
        scope: &Scope<'_>,
        list: &[Named],
        tests: &[Test],
        order: &Option<Named>,
    )
        ensures { self.new ≡ order_judged scope.now (tests_judged scope.now (words_judged scope.now self.old list.now) tests.now) order.now }
    {
        self.words(scope, list);
        self.tests(scope, tests);
        self.order(scope, order);
    }

    fn parts(&mut self, form: &Form)
        ensures { self.new ≡ parts_judged self.old form.now }
    {
        self.meet_fault(excess_of(form));
    }

    /// A broken rule beside what was found so far, where there is one.
    pub fn meet_fault(&mut self, found: Option<Refusal>)
        ensures { self.new ≡ besides self.old found }
    {
        self.fault = earlier_of_both(self.fault, found);
    }

    /// The earliest broken rule, with a gap in the parameters as the last, at the text's end.
    pub fn fault_at(&self, end: usize) -> Option<Refusal>
        ensures { result ≡ fault_of end self.now }
    {
        if self.fault.is_none() && is_gapped(&self.met) {
            Some(Refusal {
                at: end,
                rule: TextRule::ParameterGap,
            })
        } else {
            self.fault
        }
    }

    /// The kinds of the parameters, by their numbers from 1.
    pub fn kinds(&self, alloc: Global) -> Result<Items<Kind>, AllocError>
        ensures { IfOk result (λ kinds. kinds ≡ parameters self.now.met) }
    {
        first_kinds(alloc, &self.met)
    }
}

fn has_kind(met: &[Option<Kind>]) -> bool
    ensures { result ≡ list_any is_some met.now }
{
    met.iter().any(|kind| kind.is_some())
}

fn is_gapped(met: &[Option<Kind>]) -> bool
    ensures { result ≡ has_gap met.now }
{
    for i in 0..met.len() {
        if met[i].is_none() {
            return has_kind(&met[i + 1..]);
        }
    }
    false
}

fn first_kinds(alloc: Global, met: &[Option<Kind>]) -> Result<Items<Kind>, AllocError>
    ensures { IfOk result (λ kinds. kinds ≡ parameters met.now) }
{
    let mut kinds = Vec::new(alloc);
    for i in 0..met.len() {
        match met[i] {
            None => return Ok(Items::of(kinds)),
            Some(kind) => kinds.push(kind)?,
        }
    }
    Ok(Items::of(kinds))
}

/// Whether the words are the table's columns in their order.
fn are_in_order(columns: &[Column], words: &[Named]) -> bool
    ensures { result ≡ are_columns columns.now words.now }
{
    if columns.len() != words.len() {
        return false;
    }
    for i in 0..columns.len() {
        if !is_same(columns[i].name.as_slice(), words[i].name.as_slice()) {
            return false;
        }
    }
    true
}

/// What is found where all rules are tested on a form whose table has these columns.
#[tactic(auto, unfolding(crate::specs::Resolving::judged_on))]
pub fn judged(alloc: Global, columns: &[Column], form: &Form) -> Result<Judge, AllocError>
    ensures { IfOk result (λ judge. judge ≡ judged_on columns.now form.now) }
{
    let mut judge = Judge::new(alloc, columns.len())?;
    judge.columns(columns, form);
    judge.parts(form);
    Ok(judge)
}
