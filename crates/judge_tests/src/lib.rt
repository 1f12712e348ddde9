//! Tests of the judge of records, over small records that are made by hand: it finds the lawful ones legal, and of each other
//! one the part alone that is not.
#![tactic(auto)]

#[cfg(test)]
mod dialogs;
#[cfg(test)]
mod lawful;
#[cfg(test)]
mod small;
#[cfg(test)]
mod unlawful;
