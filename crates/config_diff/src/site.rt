//! Whether what two configurations declare of a site is the same: services, tables, queries and paths.

ghost use Rattle.std.specs.Prelude.{◌≡◌, option_copied};
ghost use Rattle.std.specs.Cmp.Lexicographic.{pointwise};
ghost use Rattle.config_diff.specs.Sameness.{same_query, same_service, same_column, same_shape, same_first_rows, same_part, same_owned, query_in, agree_on_queries, same_queries, owned_in, agree_on_paths, same_paths};

use crate::same::{Same, all_same, same_found};
use okws_plan::configuration::{Column, Owned, ProxyPlan, Query, ServicePlan, Table};

impl Same for ServicePlan {
    ghost same = { same_service };

    fn same(&self, other: &ServicePlan) -> bool {
        self.name.same(&other.name) && self.words == other.words
    }
}

impl Same for Column {
    ghost same = { same_column };

    fn same(&self, other: &Column) -> bool {
        self.name.as_slice() == other.name.as_slice()
            && self.kind.same(&other.kind)
            && self.key.same(&other.key)
    }
}

/// Tables are the same in name and columns. Their first rows are compared for themselves.
impl Same for Table {
    ghost same = { same_shape };

    fn same(&self, other: &Table) -> bool {
        self.name.as_slice() == other.name.as_slice()
            && all_same(self.columns.as_slice(), other.columns.as_slice())
    }
}

fn same_first_rows(a: &Table, b: &Table) -> bool
    ensures { result ≡ same_first_rows a.now b.now }
{
    a.first == b.first
}

#[tactic(auto, using(crate::proofs::Lists::unequal_lengths))]
fn have_same_rows(a: &[Table], b: &[Table]) -> bool
    ensures { result ≡ pointwise same_first_rows a.now b.now }
{
    if a.len() != b.len() {
        return false;
    }
    for i in 0..a.len() {
        if !same_first_rows(&a[i], &b[i]) {
            return false;
        }
    }
    true
}

impl Same for Query {
    ghost same = { same_query };

    fn same(&self, other: &Query) -> bool {
        self.number == other.number && self.statement.same(&other.statement)
    }
}

fn query_in(queries: &[Query], number: u16) -> Option<&Query>
    ensures { option_copied result ≡ query_in queries.now number }
{
    for query in queries {
        if query.number == number {
            return Some(query);
        }
    }
    None
}

fn agree_on_queries(numbered: &[Query], a: &[Query], b: &[Query]) -> bool
    ensures { result ≡ agree_on_queries numbered.now a.now b.now }
{
    for query in numbered {
        if !same_found(query_in(a, query.number), query_in(b, query.number)) {
            return false;
        }
    }
    true
}

fn same_queries(a: &[Query], b: &[Query]) -> bool
    ensures { result ≡ same_queries a.now b.now }
{
    agree_on_queries(a, a, b) && agree_on_queries(b, a, b)
}

/// A part of what is declared of a proxy.
#[derive(Clone, Copy)]
pub(crate) enum ProxyPart {
    Name,
    Tables,
    FirstRows,
    Queries,
}

fn same_part(part: ProxyPart, a: &ProxyPlan, b: &ProxyPlan) -> bool
    ensures { result ≡ same_part part a.now b.now }
{
    match part {
        ProxyPart::Name => a.name.same(&b.name),
        ProxyPart::Tables => all_same(a.tables.as_slice(), b.tables.as_slice()),
        ProxyPart::FirstRows => have_same_rows(a.tables.as_slice(), b.tables.as_slice()),
        ProxyPart::Queries => same_queries(a.queries.as_slice(), b.queries.as_slice()),
    }
}

/// Whether there are as many proxies, and this part of each is the same.
#[tactic(auto, using(crate::proofs::Lists::unequal_lengths))]
pub(crate) fn same_in(part: ProxyPart, a: &[ProxyPlan], b: &[ProxyPlan]) -> bool
    ensures { result ≡ pointwise (same_part part) a.now b.now }
{
    if a.len() != b.len() {
        return false;
    }
    for i in 0..a.len() {
        if !same_part(part, &a[i], &b[i]) {
            return false;
        }
    }
    true
}

impl Same for Owned {
    ghost same = { same_owned };

    fn same(&self, other: &Owned) -> bool {
        self.path.as_slice() == other.path.as_slice() && self.service == other.service
    }
}

fn owned_in<'a>(paths: &'a [Owned], path: &[u8]) -> Option<&'a Owned>
    ensures { option_copied result ≡ owned_in paths.now path.now }
{
    for owned in paths {
        if owned.path.as_slice() == path {
            return Some(owned);
        }
    }
    None
}

fn agree_on_paths(owned: &[Owned], a: &[Owned], b: &[Owned]) -> bool
    ensures { result ≡ agree_on_paths owned.now a.now b.now }
{
    for one in owned {
        let path = one.path.as_slice();
        if !same_found(owned_in(a, path), owned_in(b, path)) {
            return false;
        }
    }
    true
}

/// Whether two lists have the same paths with the same owners. Mostly they stand in one order, and
/// then no path is looked for.
#[tactic(auto, using(crate::proofs::Paths::same_in_order))]
pub(crate) fn same_paths(a: &[Owned], b: &[Owned]) -> bool
    ensures { result ≡ same_paths a.now b.now }
{
    if all_same(a, b) {
        return true;
    }
    agree_on_paths(a, a, b) && agree_on_paths(b, a, b)
}
