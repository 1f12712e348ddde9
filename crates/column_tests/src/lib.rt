//! Tests of the columns by worked runs. Not tested here: columns behind locks, and dialogs, which other
//! crates of tests have.
#![tactic(auto)]

#[cfg(test)]
mod dispatch;
#[cfg(test)]
mod grants;
#[cfg(test)]
mod holding;
#[cfg(test)]
mod log;
#[cfg(test)]
mod proxy;
#[cfg(test)]
mod reads;
#[cfg(test)]
mod shaky;
#[cfg(test)]
mod site;
#[cfg(test)]
mod templates;
#[cfg(test)]
mod tokens;
