//! Values and arguments that look drawn. Those at the ends are such at which another order or another equality
//! would show: the ends of the numbers, texts that are numbers, upper case, letters of several bytes, a zero byte,
//! and bytes that begin one another.

use crate::holding::MEMORY;
use crate::site::{bytes, query_at, text};
use okws_base::value::{Kind, Value};
use okws_plan::configuration::Config;
use std::alloc::Global;
use std::process::Abort;

const INTS: [i64; 11] = [
    i64::MIN,
    -256,
    -1,
    0,
    1,
    2,
    9,
    10,
    256,
    i64::MAX - 1,
    i64::MAX,
];

const TEXTS: [&str; 11] = [
    "", "a", "A", "ab", "b", "10", "9", "é", "\u{0}", "a\u{0}", "𝄞",
];

const BYTES: [&[u8]; 11] = [
    &[],
    &[0],
    &[0, 0],
    &[1],
    &[97],
    &[97, 0],
    &[127],
    &[128],
    &[255],
    &[255, 0],
    &[254, 255],
];

/// The next number of a row of numbers that looks drawn.
pub fn next(state: u64) -> u64 {
    state
        .wrapping_mul(6_364_136_223_846_793_005)
        .wrapping_add(1_442_695_040_888_963_407)
}

/// Which values are drawn.
#[derive(Clone, Copy, PartialEq, Eq)]
pub enum Pool {
    /// A few, so that most stand in several rows.
    Few,
    /// The ends.
    Ends,
}

/// One of a few.
fn small(rt: &impl Abort, alloc: Global, kind: Kind, number: u64) -> Value {
    let small = (number / 65_536 % 11) as u8;
    match kind {
        Kind::Int => Value::Int(i64::from(small)),
        Kind::Text => text(rt, alloc, if small < 4 { "a" } else { "b" }),
        Kind::Bytes => bytes(rt, alloc, &[small / 4]),
    }
}

/// One of the ends.
fn end(rt: &impl Abort, alloc: Global, kind: Kind, number: u64) -> Value {
    let at = (number / 4_294_967_296 % 11) as usize;
    match kind {
        Kind::Int => Value::Int(INTS[at]),
        Kind::Text => text(rt, alloc, TEXTS[at]),
        Kind::Bytes => bytes(rt, alloc, BYTES[at]),
    }
}

/// What is drawn for the parameters of a query, by this number.
pub fn arguments(
    rt: &impl Abort,
    alloc: Global,
    config: &Config,
    query: u16,
    pool: Pool,
    mut number: u64,
) -> Vec<Value> {
    let mut args = Vec::new(alloc);
    if let Some(query) = query_at(config, query) {
        for kind in query.statement.parameters.as_slice() {
            number = next(number);
            let value = match pool {
                Pool::Few => small(rt, alloc, *kind, number),
                Pool::Ends => end(rt, alloc, *kind, number),
            };
            args.push(value).expect(rt, MEMORY);
        }
    }
    args
}
