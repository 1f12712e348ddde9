//! What each declaration does to what is declared above it.

ghost use Rattle.config_reader.specs.Answers.{GivesLine};
ghost use Rattle.config_syntax.specs.Declarations.{Proxy, Table as TableLine, Row, Query, Service, Retry, Uri, Grant, Template, Read, Log};
ghost use Rattle.config_reader.specs.After.{declared};

use crate::draft::{
    Draft, add_grants, broken, has_bad_row_name, has_bad_table_name, is_logger, is_readable,
    is_reserved_name, name_of, path_of,
};
use crate::error::{ConfigRule, LineError};
use crate::plan::ProxyDraft;
use config_syntax::column::{ColumnWords, TableWords, count_keys, have_kinds};
use config_syntax::literal::literals_of;
use config_syntax::words::{number_to, query_numbers};
use okws_base::items::Items;
use okws_base::limit::{
    GREATEST_QUERY, GREATEST_RETRY, MOST_PROXIES, MOST_SERVICES, MOST_TEMPLATES,
};
use okws_base::name::{is_a_name, is_a_path};
use okws_plan::configuration::{Readable, ServicePlan};
use std::alloc::Global;

impl Draft {
    #[tactic(auto, unfolding(crate::specs::After::declared))]
    pub fn declare_proxy(&mut self, alloc: Global, name: &[u8]) -> Result<(), LineError>
        ensures { GivesLine (λ _. self.new) result (declared self.old (Proxy name.now)) }
    {
        if !is_a_name(name) {
            return broken(ConfigRule::BadName);
        }
        if is_reserved_name(name) || self.proxy_number(name).is_some() {
            return broken(ConfigRule::Taken);
        }
        if self.proxies.len() >= MOST_PROXIES {
            return broken(ConfigRule::TooMany);
        }
        let plan = ProxyDraft::new(alloc, name_of(alloc, name)?);
        self.proxies.push(plan)?;
        Ok(())
    }

    #[tactic(auto, unfolding(crate::specs::After::declared))]
    fn declare_table(
        &mut self,
        alloc: Global,
        proxy: &[u8],
        name: &[u8],
        columns: &[ColumnWords],
    ) -> Result<(), LineError>
        ensures { GivesLine (λ _. self.new) result (declared self.old (TableLine proxy.now name.now columns.now)) }
    {
        if has_bad_table_name(proxy, name, columns) {
            return broken(ConfigRule::BadName);
        }
        if !have_kinds(columns) {
            return broken(ConfigRule::BadKind);
        }
        if self.proxy_number(proxy).is_none() {
            return broken(ConfigRule::Undeclared);
        }
        if self.takes_table(proxy, name, columns) {
            return broken(ConfigRule::Taken);
        }
        if count_keys(columns) > 1 {
            return broken(ConfigRule::TwoKeys);
        }
        if self.has_too_many_tables(proxy, columns) {
            return broken(ConfigRule::TooMany);
        }
        self.add_table(alloc, proxy, name, columns)?;
        Ok(())
    }

    pub fn declare_table_words(
        &mut self,
        alloc: Global,
        words: &TableWords,
    ) -> Result<(), LineError>
        ensures { GivesLine (λ _. self.new) result (declared self.old (TableLine words.now.proxy words.now.name words.now.columns)) }
    {
        self.declare_table(alloc, words.proxy, words.name, &words.columns)
    }

    #[tactic(auto, unfolding(crate::specs::After::declared))]
    pub fn declare_row(
        &mut self,
        alloc: Global,
        proxy: &[u8],
        table: &[u8],
        text: &[u8],
    ) -> Result<(), LineError>
        ensures { GivesLine (λ _. self.new) result (declared self.old (Row proxy.now table.now text.now)) }
    {
        if has_bad_row_name(proxy, table) {
            return broken(ConfigRule::BadName);
        }
        let Some(values) = literals_of(alloc, text)? else {
            return broken(ConfigRule::BadLiteral);
        };
        if !self.has_table(proxy, table) {
            return broken(ConfigRule::Undeclared);
        }
        if !self.can_hold(proxy, table, &values) {
            return broken(ConfigRule::RowMismatch);
        }
        self.add_row(alloc, proxy, table, values)?;
        Ok(())
    }

    #[tactic(auto, unfolding(crate::specs::After::declared))]
    pub fn declare_query(
        &mut self,
        alloc: Global,
        proxy: &[u8],
        number: &[u8],
        text: &[u8],
    ) -> Result<(), LineError>
        ensures { GivesLine (λ _. self.new) result (declared self.old (Query proxy.now number.now text.now)) }
    {
        if !is_a_name(proxy) {
            return broken(ConfigRule::BadName);
        }
        let Some(number) = number_to(GREATEST_QUERY, number) else {
            return broken(ConfigRule::BadNumber);
        };
        let number = number as u16;
        if self.proxy_number(proxy).is_none() {
            return broken(ConfigRule::Undeclared);
        }
        if self.takes_query(proxy, number) {
            return broken(ConfigRule::Taken);
        }
        let Some(statement) = self.statement_at(alloc, proxy, text)? else {
            return broken(ConfigRule::QueryRefused);
        };
        if self.has_too_many_queries(proxy) {
            return broken(ConfigRule::TooMany);
        }
        self.add_query(proxy, number, statement)?;
        Ok(())
    }

    #[tactic(auto, unfolding(crate::specs::After::declared))]
    pub fn declare_service(
        &mut self,
        alloc: Global,
        name: &[u8],
        words: Vec<Items<u8>>,
    ) -> Result<(), LineError>
        ensures { GivesLine (λ _. self.new) result (declared self.old (Service name.now words.items)) }
    {
        if !is_a_name(name) {
            return broken(ConfigRule::BadName);
        }
        if self.service_number(name).is_some() {
            return broken(ConfigRule::Taken);
        }
        if self.services.len() >= MOST_SERVICES {
            return broken(ConfigRule::TooMany);
        }
        let name = name_of(alloc, name)?;
        let words = Items::of(words);
        self.services.push(ServicePlan { name, words })?;
        Ok(())
    }

    #[tactic(auto, unfolding(crate::specs::After::declared))]
    pub fn declare_retry(&mut self, number: &[u8]) -> Result<(), LineError>
        ensures { GivesLine (λ _. self.new) result (declared self.old (Retry number.now)) }
    {
        let Some(number) = number_to(u32::from(GREATEST_RETRY), number) else {
            return broken(ConfigRule::BadNumber);
        };
        if self.retry.is_some() {
            return broken(ConfigRule::Taken);
        }
        self.retry = Some(number as u16);
        Ok(())
    }

    #[tactic(auto, unfolding(crate::specs::After::declared))]
    pub fn declare_uri(
        &mut self,
        alloc: Global,
        path: &[u8],
        service: &[u8],
    ) -> Result<(), LineError>
        ensures { GivesLine (λ _. self.new) result (declared self.old (Uri path.now service.now)) }
    {
        if !is_a_name(service) {
            return broken(ConfigRule::BadName);
        }
        if !is_a_path(path) {
            return broken(ConfigRule::BadPath);
        }
        let Some(service) = self.service_number(service) else {
            return broken(ConfigRule::Undeclared);
        };
        if self.paths.has(path) {
            return broken(ConfigRule::Taken);
        }
        let path = path_of(alloc, path)?;
        self.paths.add(alloc, path, service)?;
        Ok(())
    }

    #[tactic(auto, unfolding(crate::specs::After::declared))]
    pub fn declare_grant(
        &mut self,
        alloc: Global,
        service: &[u8],
        proxy: &[u8],
        numbers: &[Items<u8>],
    ) -> Result<(), LineError>
        ensures { GivesLine (λ _. self.new) result (declared self.old (Grant service.now proxy.now numbers.now)) }
    {
        if !is_a_name(service) || !is_a_name(proxy) {
            return broken(ConfigRule::BadName);
        }
        let Some(numbers) = query_numbers(alloc, numbers)? else {
            return broken(ConfigRule::BadNumber);
        };
        let Some(service) = self.service_number(service) else {
            return broken(ConfigRule::Undeclared);
        };
        let Some(place) = self.proxy_number(proxy) else {
            return broken(ConfigRule::Undeclared);
        };
        if !self.proxies[place as usize].has_queries(&numbers) {
            return broken(ConfigRule::Undeclared);
        }
        if !add_grants(&mut self.grants, service, place, &numbers)? {
            return broken(ConfigRule::Taken);
        }
        Ok(())
    }

    #[tactic(auto, unfolding(crate::specs::After::declared))]
    pub fn declare_template(&mut self, alloc: Global, name: &[u8]) -> Result<(), LineError>
        ensures { GivesLine (λ _. self.new) result (declared self.old (Template name.now)) }
    {
        if !is_a_name(name) {
            return broken(ConfigRule::BadName);
        }
        if self.template_number(name).is_some() {
            return broken(ConfigRule::Taken);
        }
        if self.templates.len() >= MOST_TEMPLATES {
            return broken(ConfigRule::TooMany);
        }
        self.templates.push(name_of(alloc, name)?)?;
        Ok(())
    }

    #[tactic(auto, unfolding(crate::specs::After::declared))]
    pub fn declare_read(&mut self, service: &[u8], template: &[u8]) -> Result<(), LineError>
        ensures { GivesLine (λ _. self.new) result (declared self.old (Read service.now template.now)) }
    {
        if !is_a_name(service) || !is_a_name(template) {
            return broken(ConfigRule::BadName);
        }
        let Some(service) = self.service_number(service) else {
            return broken(ConfigRule::Undeclared);
        };
        let Some(template) = self.template_number(template) else {
            return broken(ConfigRule::Undeclared);
        };
        if is_readable(&self.readables, service, template) {
            return broken(ConfigRule::Taken);
        }
        self.readables.push(Readable { service, template })?;
        Ok(())
    }

    #[tactic(auto, unfolding(crate::specs::After::declared))]
    pub fn declare_log(&mut self, service: &[u8]) -> Result<(), LineError>
        ensures { GivesLine (λ _. self.new) result (declared self.old (Log service.now)) }
    {
        if !is_a_name(service) {
            return broken(ConfigRule::BadName);
        }
        let Some(service) = self.service_number(service) else {
            return broken(ConfigRule::Undeclared);
        };
        if is_logger(&self.loggers, service) {
            return broken(ConfigRule::Taken);
        }
        self.loggers.push(service)?;
        Ok(())
    }
}
