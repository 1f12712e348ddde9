//! Tests of the keepers by the answers of statements over whole configurations: the keeper with indexes
//! beside a plain list, the keeper over a database, in memory and in a file, beside the one with indexes, and what
//! each statement answers where rows are looked up.
#![tactic(auto)]

#[cfg(test)]
mod beside;
#[cfg(test)]
mod calls;
#[cfg(test)]
mod database;
#[cfg(test)]
mod draws;
#[cfg(test)]
mod holding;
#[cfg(test)]
mod plain;
#[cfg(test)]
mod site;
