//! What the lines of a configuration declare, while it is read.

ghost use Rattle.std.specs.Prelude.{◌≡◌, ◌<◌, ◌≤◌, ◌∷◌, ◌++◌, [], length, IfOk, OnOk, IfSome, IsTrue, is_none, position, Some, Err, if◌then◌else◌, ◌==◌, ◌&&◌, ◌||◌, not, false};
ghost use Rattle.std.specs.List.{list_all, list_any};
ghost use Rattle.okws_base.specs.Names.{is_name, is_path, is_identifier};
ghost use Rattle.okws_base.specs.Value.{same_bytes};
ghost use Rattle.config_reader.specs.Above.{proxy_number, service_number, template_number, table_number, tables_at, nothing_above};
ghost use Rattle.config_reader.specs.Broken.{is_reserved, regrants, has_bad_table_name, has_bad_row_name, takes_table, takes_query, can_hold, statement_at, has_too_many_tables, has_too_many_queries};
ghost use Rattle.config_reader.specs.After.{granted_of, with_plan, with_table, table_of, with_row_in, with_query};
ghost use Rattle.config_reader.specs.declared.error.ConfigRule.TheVariants as rule;
ghost use Rattle.statement_core.specs.Compiled.{compiled};
ghost use Rattle.std.specs.Result.{result_ok};

mod declare;

use crate::error::{ConfigRule, LineError};
use crate::grants::Grants;
use crate::paths::Paths;
use crate::plan::ProxyDraft;
use config_syntax::column::{ColumnWords, have_identifiers, have_repeats};
use okws_base::items::Items;
use okws_base::limit::{DEFAULT_RETRY, MOST_COLUMNS, MOST_QUERIES, MOST_TABLES};
use okws_base::name::{Name, Path, is_a_name, is_an_identifier};
use okws_base::value::Value;
use okws_plan::configuration::{Config, ProxyPlan, Readable, ServicePlan, Table};
use okws_plan::statement::Statement;
use plain_text::parts::is_same;
use statement_core::{CompileError, compile};
use std::alloc::{AllocError, Global};
use std::marker::Model;

/// What the lines above a line declare, while a configuration is read.
#[derive(Drop)]
pub struct Draft {
    proxies: Vec<ProxyDraft>,
    services: Vec<ServicePlan>,
    templates: Vec<Name>,
    retry: Option<u16>,
    paths: Paths,
    grants: Grants,
    readables: Vec<Readable>,
    loggers: Vec<u16>,
}

impl Model for Draft {
    ghost use Rattle.std.specs.Prelude.{is_some, unwrap_or};
    ghost use Rattle.config_reader.specs.Above.{Above, IsNumbered};
    ghost use Rattle.okws_base.specs.declared.limit.TheConstants.{DEFAULT_RETRY};

    ghost Value = { Above };

    ghost view = { λ a. record {
      config = record {
        proxies = a.proxies.items;
        services = a.services.items;
        templates = a.templates.items;
        retry = unwrap_or a.retry DEFAULT_RETRY;
        paths = a.paths;
        grants = a.grants;
        readables = a.readables.items;
        loggers = a.loggers.items;
      };
      has_retry = is_some a.retry;
    } };

    ghost invariant = { λ a. IsNumbered a.proxies.items a.services.items a.templates.items };
}

fn broken<T>(rule: ConfigRule) -> Result<T, LineError>
    ensures { result ≡ Err (LineError.Broken rule) }
{
    Err(LineError::Broken(rule))
}

/// The name of a word.
fn name_of(alloc: Global, word: &[u8]) -> Result<Name, AllocError>
    requires { IsTrue (is_name word.now) }
    ensures { IfOk result (λ n. n ≡ word.now) }
{
    let bytes = Items::of(Vec::from_slice(alloc, word)?);
    Ok(Name::new(bytes).unwrap())
}

/// The path of a word.
fn path_of(alloc: Global, word: &[u8]) -> Result<Path, AllocError>
    requires { IsTrue (is_path word.now) }
    ensures { IfOk result (λ p. p ≡ word.now) }
{
    let bytes = Items::of(Vec::from_slice(alloc, word)?);
    Ok(Path::new(bytes).unwrap())
}

fn proxy_place(proxies: &[ProxyDraft], name: &[u8]) -> Option<usize>
    ensures is { result ≡ position (λ p. same_bytes p.name name.now) proxies.now }
    ensures within { IfSome result (λ n. n < length proxies.now) }
{
    proxies.iter().position(|proxy| proxy.is_named(name))
}

fn service_place(services: &[ServicePlan], name: &[u8]) -> Option<usize>
    ensures is { result ≡ position (λ s. same_bytes s.name name.now) services.now }
    ensures within { IfSome result (λ n. n < length services.now) }
{
    services
        .iter()
        .position(|service| is_same(service.name.as_slice(), name))
}

fn template_place(templates: &[Name], name: &[u8]) -> Option<usize>
    ensures is { result ≡ position (λ t. same_bytes t name.now) templates.now }
    ensures within { IfSome result (λ n. n < length templates.now) }
{
    templates
        .iter()
        .position(|template| is_same(template.as_slice(), name))
}

#[tactic(auto, unfolding(crate::specs::Broken::has_bad_table_name))]
fn has_bad_table_name(proxy: &[u8], name: &[u8], columns: &[ColumnWords]) -> bool
    ensures is { result ≡ has_bad_table_name proxy.now name.now columns.now }
    ensures name { result ≡ false → IsTrue (is_identifier name.now) }
    ensures columns { result ≡ false → IsTrue (list_all (λ c. is_identifier c.name) columns.now) }
{
    !is_a_name(proxy) || !is_an_identifier(name) || !have_identifiers(columns)
}

#[tactic(auto, unfolding(crate::specs::Broken::has_bad_row_name))]
fn has_bad_row_name(proxy: &[u8], table: &[u8]) -> bool
    ensures { result ≡ has_bad_row_name proxy.now table.now }
{
    !is_a_name(proxy) || !is_an_identifier(table)
}

fn is_reserved_name(name: &[u8]) -> bool
    ensures { result ≡ is_reserved name.now }
{
    is_same(name, b"okd") || is_same(name, b"pubd") || is_same(name, b"oklogd")
}

/// Adds a grant of each query, and tells whether none of them was there.
fn add_grants(
    grants: &mut Grants,
    service: u16,
    proxy: u16,
    queries: &[u16],
) -> Result<bool, AllocError>
    ensures free { IfOk result (λ free. free ≡ not (regrants grants.old service proxy queries.now)) }
    ensures added { IfOk result (λ free. IsTrue free → grants.new ≡ grants.old ++ granted_of service proxy queries.now) }
{
    for query in queries {
        if !grants.add(service, proxy, *query)? {
            return Ok(false);
        }
    }
    Ok(true)
}

fn is_readable(readables: &[Readable], service: u16, template: u16) -> bool
    ensures { result ≡ list_any (λ r. (r.service == service) && (r.template == template)) readables.now }
{
    readables
        .iter()
        .any(|r| r.service == service && r.template == template)
}

fn is_logger(loggers: &[u16], service: u16) -> bool
    ensures { result ≡ list_any (λ t. t == service) loggers.now }
{
    loggers.iter().any(|logger| *logger == service)
}

/// The statement that a text compiles to.
fn statement_of(
    alloc: Global,
    tables: &[Table],
    text: &[u8],
) -> Result<Option<Statement>, AllocError>
    ensures { IfOk result (λ found. found ≡ result_ok (compiled tables.now text.now)) }
{
    match compile(alloc, tables, text) {
        Ok(statement) => Ok(Some(statement)),
        Err(CompileError::TextRefused(_)) => Ok(None),
        Err(CompileError::NoMemory) => Err(AllocError),
    }
}

fn plans_of(alloc: Global, drafts: Vec<ProxyDraft>) -> Result<Vec<ProxyPlan>, AllocError>
    ensures { IfOk result (λ v. v.items ≡ drafts.items) }
{
    let mut out = Vec::new(alloc);
    for draft in drafts {
        out.push(draft.into_plan())?;
    }
    Ok(out)
}

impl Draft {
    /// Nothing declared yet.
    pub fn new(alloc: Global) -> Draft
        ensures { result ≡ nothing_above }
    {
        Draft {
            proxies: Vec::new(alloc),
            services: Vec::new(alloc),
            templates: Vec::new(alloc),
            retry: None,
            paths: Paths::new(alloc),
            grants: Grants::new(alloc),
            readables: Vec::new(alloc),
            loggers: Vec::new(alloc),
        }
    }

    fn service_number(&self, name: &[u8]) -> Option<u16>
        ensures { result ≡ service_number self.now.config name.now }
    {
        match service_place(&self.services, name) {
            None => None,
            Some(place) => Some(place as u16),
        }
    }

    fn template_number(&self, name: &[u8]) -> Option<u16>
        ensures { result ≡ template_number self.now.config name.now }
    {
        match template_place(&self.templates, name) {
            None => None,
            Some(place) => Some(place as u16),
        }
    }

    fn proxy_number(&self, name: &[u8]) -> Option<u16>
        ensures is { result ≡ proxy_number self.now.config name.now }
        ensures within { IfSome result (λ n. n < length self.now.config.proxies) }
    {
        match proxy_place(&self.proxies, name) {
            None => None,
            Some(place) => Some(place as u16),
        }
    }

    #[tactic(auto, unfolding(crate::specs::Broken::takes_table))]
    fn takes_table(&self, proxy: &[u8], name: &[u8], columns: &[ColumnWords]) -> bool
        ensures { result ≡ takes_table self.now.config proxy.now name.now columns.now }
    {
        match proxy_place(&self.proxies, proxy) {
            None => have_repeats(columns),
            Some(place) => self.proxies[place].has_table(name) || have_repeats(columns),
        }
    }

    #[tactic(auto, unfolding(crate::specs::Broken::has_too_many_tables))]
    fn has_too_many_tables(&self, proxy: &[u8], columns: &[ColumnWords]) -> bool
        ensures { result ≡ has_too_many_tables self.now.config proxy.now columns.now }
    {
        match proxy_place(&self.proxies, proxy) {
            None => columns.len() > MOST_COLUMNS,
            Some(place) => {
                self.proxies[place].table_count() >= MOST_TABLES || columns.len() > MOST_COLUMNS
            }
        }
    }

    #[tactic(auto, unfolding(crate::specs::After::with_plan))]
    fn add_table(
        &mut self,
        alloc: Global,
        proxy: &[u8],
        name: &[u8],
        columns: &[ColumnWords],
    ) -> Result<(), AllocError>
        requires name { IsTrue (is_identifier name.now) }
        requires columns { IsTrue (list_all (λ c. is_identifier c.name) columns.now) }
        ensures { OnOk result (self.new ≡ with_plan self.old proxy.now (with_table (table_of name.now columns.now))) }
    {
        match proxy_place(&self.proxies, proxy) {
            None => Ok(()),
            Some(place) => self.proxies[place].add_table(alloc, name, columns),
        }
    }

    fn has_table(&self, proxy: &[u8], table: &[u8]) -> bool
        ensures { result ≡ not (is_none (proxy_number self.now.config proxy.now) || is_none (table_number (tables_at self.now.config proxy.now) table.now)) }
    {
        match proxy_place(&self.proxies, proxy) {
            None => false,
            Some(place) => self.proxies[place].has_table(table),
        }
    }

    #[tactic(auto, unfolding(crate::specs::Broken::can_hold))]
    fn can_hold(&self, proxy: &[u8], table: &[u8], values: &[Value]) -> bool
        ensures { result ≡ can_hold self.now.config proxy.now table.now values.now }
    {
        match proxy_place(&self.proxies, proxy) {
            None => false,
            Some(place) => self.proxies[place].can_hold(table, values),
        }
    }

    #[tactic(auto, unfolding(crate::specs::After::with_plan))]
    fn add_row(
        &mut self,
        alloc: Global,
        proxy: &[u8],
        table: &[u8],
        values: Vec<Value>,
    ) -> Result<(), AllocError>
        ensures { OnOk result (self.new ≡ with_plan self.old proxy.now (with_row_in table.now values.items)) }
    {
        match proxy_place(&self.proxies, proxy) {
            None => Ok(()),
            Some(place) => self.proxies[place].add_row(alloc, table, values),
        }
    }

    #[tactic(auto, unfolding(crate::specs::Broken::takes_query))]
    fn takes_query(&self, proxy: &[u8], number: u16) -> bool
        ensures { result ≡ takes_query self.now.config proxy.now number }
    {
        match proxy_place(&self.proxies, proxy) {
            None => false,
            Some(place) => self.proxies[place].has_query(number),
        }
    }

    #[tactic(auto, unfolding(crate::specs::Broken::has_too_many_queries))]
    fn has_too_many_queries(&self, proxy: &[u8]) -> bool
        ensures { result ≡ has_too_many_queries self.now.config proxy.now }
    {
        match proxy_place(&self.proxies, proxy) {
            None => false,
            Some(place) => self.proxies[place].query_count() >= MOST_QUERIES,
        }
    }

    #[tactic(auto, unfolding(crate::specs::Broken::statement_at))]
    fn statement_at(
        &self,
        alloc: Global,
        proxy: &[u8],
        text: &[u8],
    ) -> Result<Option<Statement>, AllocError>
        ensures { IfOk result (λ found. found ≡ statement_at self.now.config proxy.now text.now) }
    {
        match proxy_place(&self.proxies, proxy) {
            None => statement_of(alloc, &[], text),
            Some(place) => statement_of(alloc, self.proxies[place].tables(), text),
        }
    }

    #[tactic(auto, unfolding(crate::specs::After::with_plan))]
    fn add_query(
        &mut self,
        proxy: &[u8],
        number: u16,
        statement: Statement,
    ) -> Result<(), AllocError>
        ensures { OnOk result (self.new ≡ with_plan self.old proxy.now (with_query number (Some statement))) }
    {
        match proxy_place(&self.proxies, proxy) {
            None => Ok(()),
            Some(place) => self.proxies[place].add_query(number, statement),
        }
    }

    /// The configuration that was declared.
    pub fn into_config(self, alloc: Global) -> Result<Config, AllocError>
        ensures { IfOk result (λ config. config ≡ self.config) }
    {
        Ok(Config {
            proxies: Items::of(plans_of(alloc, self.proxies)?),
            services: Items::of(self.services),
            templates: Items::of(self.templates),
            retry: self.retry.unwrap_or(DEFAULT_RETRY),
            paths: Items::of(self.paths.into_list()),
            grants: Items::of(self.grants.into_list()),
            readables: Items::of(self.readables),
            loggers: Items::of(self.loggers),
        })
    }
}
