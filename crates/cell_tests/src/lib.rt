//! Tests of cells by what they give to a service and say of it: dialogs over a link in memory, one for
//! each way in which they end, want of memory among them. Not tested here: answers of columns but
//! NoMemory, and pushes.
#![tactic(auto)]

#[cfg(test)]
mod bare;
#[cfg(test)]
mod dialogs;
#[cfg(test)]
mod holding;
#[cfg(test)]
mod scant;
#[cfg(test)]
mod turns;
#[cfg(test)]
mod whole;
