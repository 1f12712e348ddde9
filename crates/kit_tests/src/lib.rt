//! Tests of the service's end of a link, and of the guestbook over one. Not tested here: standard input and output.
#![tactic(auto)]

#[cfg(test)]
mod fill;
#[cfg(test)]
mod guest;
#[cfg(test)]
mod holding;
#[cfg(test)]
mod kit;
#[cfg(test)]
mod pages;
