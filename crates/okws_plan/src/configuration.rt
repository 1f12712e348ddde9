//! What a configuration says.

ghost use Rattle.std.specs.Prelude.{◌≡◌};
ghost use Rattle.okws_plan.specs.Configuration.{service_name};

use crate::statement::Statement;
use okws_base::items::{Exact, Items};
use okws_base::name::{Identifier, Name, Path};
use okws_base::value::{Kind, Row};
use std::alloc::{AllocError, Global};

/// A column of a table; `key` marks the one whose values may stand in one row only.
pub struct Column {
    pub name: Identifier,
    pub kind: Kind,
    pub key: bool,
}

impl Drop for Column {
    fn drop(self) {
        let Column {
            name,
            kind: _,
            key: _,
        } = self;
        drop(name);
    }
}

impl Exact for Column {
    fn copy(&self, alloc: Global) -> Result<Column, AllocError> {
        Ok(Column {
            name: self.name.copy(alloc)?,
            kind: self.kind,
            key: self.key,
        })
    }
}

/// A table of a proxy, with the rows that it has when a run begins.
pub struct Table {
    pub name: Identifier,
    pub columns: Items<Column>,
    pub first: Items<Row>,
}

impl Drop for Table {
    fn drop(self) {
        let Table {
            name,
            columns,
            first,
        } = self;
        drop(name);
        drop(columns);
        drop(first);
    }
}

impl Exact for Table {
    fn copy(&self, alloc: Global) -> Result<Table, AllocError> {
        Ok(Table {
            name: self.name.copy(alloc)?,
            columns: self.columns.copy(alloc)?,
            first: self.first.copy(alloc)?,
        })
    }
}

/// A query of a proxy; numbers are 0 to 65,535 and need not follow one another.
pub struct Query {
    pub number: u16,
    pub statement: Statement,
}

impl Drop for Query {
    fn drop(self) {
        let Query {
            number: _,
            statement,
        } = self;
        drop(statement);
    }
}

/// A database proxy: its tables and the queries that may be called there.
pub struct ProxyPlan {
    pub name: Name,
    pub tables: Items<Table>,
    pub queries: Items<Query>,
}

impl Drop for ProxyPlan {
    fn drop(self) {
        let ProxyPlan {
            name,
            tables,
            queries,
        } = self;
        drop(name);
        drop(tables);
        drop(queries);
    }
}

/// A service, and the words that start its program.
pub struct ServicePlan {
    pub name: Name,
    pub words: Items<Items<u8>>,
}

impl Drop for ServicePlan {
    fn drop(self) {
        let ServicePlan { name, words } = self;
        drop(name);
        drop(words);
    }
}

/// A path that a service owns.
pub struct Owned {
    pub path: Path,
    pub service: u16,
}

impl Drop for Owned {
    fn drop(self) {
        let Owned { path, service: _ } = self;
        drop(path);
    }
}

/// A query of a proxy that a service may call.
#[derive(Clone, Copy)]
pub struct Granted {
    pub service: u16,
    pub proxy: u16,
    pub query: u16,
}

/// A template that a service may read.
#[derive(Clone, Copy)]
pub struct Readable {
    pub service: u16,
    pub template: u16,
}

/// What an operator's file says of a site. Proxies, services and templates are numbered from 0 in
/// the order of their declaration; `retry` is the number of tries after which a service is given up.
pub struct Config {
    pub proxies: Items<ProxyPlan>,
    pub services: Items<ServicePlan>,
    pub templates: Items<Name>,
    pub retry: u16,
    pub paths: Items<Owned>,
    pub grants: Items<Granted>,
    pub readables: Items<Readable>,
    pub loggers: Items<u16>,
}

impl Drop for Config {
    fn drop(self) {
        let Config {
            proxies,
            services,
            templates,
            retry: _,
            paths,
            grants,
            readables,
            loggers,
        } = self;
        drop(proxies);
        drop(services);
        drop(templates);
        drop(paths);
        drop(grants);
        drop(readables);
        drop(loggers);
    }
}

/// The name of the service, or nothing where there is none of this number.
pub fn name_of(config: &Config, service: u16) -> &[u8]
    ensures { result.now ≡ service_name config.now service }
{
    match config.services.as_slice().get(service as usize) {
        None => &[],
        Some(plan) => plan.name.as_slice(),
    }
}
