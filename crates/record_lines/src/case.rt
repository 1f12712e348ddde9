//! What is judged.

use crate::plain::{Line, Plain};
use okws_plan::configuration::Config;
use std::alloc::Global;
use token_core::Seed;

/// An incarnation of a service.
#[derive(Clone, Copy)]
pub struct Incarnation {
    pub service: u16,
    pub number: u32,
}

/// What is judged: a site and its seed, what the outside told, and what the run left.
#[derive(Clone, Copy)]
pub struct Case<'c, 'a> {
    pub alloc: Global,
    pub site: &'c Config,
    pub seed: &'c Seed,
    /// What the operator ordered, where the console tells it; each order was obeyed.
    pub orders: Option<&'c [Line<'a>]>,
    /// Whose children were asked, and had ended.
    pub ended: &'c [Incarnation],
    /// How often starts and links of children failed.
    pub failures: u64,
    /// How often the keeper of each proxy's rows failed.
    pub faults: &'c [u64],
    pub plain: &'c Plain<'a>,
}
