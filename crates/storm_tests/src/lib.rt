//! Tests of servers in storms, of servers of which each call of the outside fails in turn, and of hostile services and clients: a
//! judge reads the record that a run left, and finds it legal; and it finds which part of a record is not that was changed in one
//! place.
#![tactic(auto)]

#[cfg(test)]
mod edits;
#[cfg(test)]
mod failing;
#[cfg(test)]
mod holding;
#[cfg(test)]
mod hostile;
#[cfg(test)]
mod legal;
#[cfg(test)]
mod says;
#[cfg(test)]
mod site;
#[cfg(test)]
mod status;
#[cfg(test)]
mod storm;
#[cfg(test)]
mod tables;
#[cfg(test)]
mod weather;
