//! Tests of the turn lock and the live board in threads: turns that end, with fewer and with more threads than
//! processors. Not tested here: which interleavings come, which no test can say; the locks' clauses hold in each.
#![tactic(auto)]

#[cfg(test)]
mod drawing;
#[cfg(test)]
mod holding;
#[cfg(test)]
mod ledger;
#[cfg(test)]
mod row;
#[cfg(test)]
mod turns;
