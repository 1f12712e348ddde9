//! Templates, filled or refused. That memory may be refused isn't tested here.

use crate::holding::{MEMORY, holds};
use std::alloc::Global;
use std::process::Abort;
use svc_kit::bounded::LONGEST_FILLED;
use svc_kit::fill::{FillError, Pair, fill};

/// The template filled, or the place and the number of the rule that refuses it.
fn filled(
    rt: &impl Abort,
    alloc: Global,
    template: &[u8],
    pairs: &[Pair],
) -> Result<Vec<u8>, (usize, u8)> {
    match fill(alloc, template, pairs) {
        Ok(text) => Ok(text.into_vec()),
        Err(FillError::Refused { at, rule }) => Err((at, rule.number())),
        Err(FillError::NoMemory) => panic!(rt; "memory was refused"),
    }
}

fn fills(rt: &impl Abort, alloc: Global, template: &str, pairs: &[Pair], want: &str) {
    let text = filled(rt, alloc, template.as_bytes(), pairs).ok();
    holds(rt, text.as_deref() == Some(want.as_bytes()), template);
}

fn refuses(
    rt: &impl Abort,
    alloc: Global,
    template: &str,
    pairs: &[Pair],
    place: usize,
    number: u8,
) {
    let found = filled(rt, alloc, template.as_bytes(), pairs).err();
    holds(rt, found == Some((place, number)), template);
}

#[test]
fn places_are_filled(rt: HostRuntime) {
    let alloc = rt.alloc();
    let x = [Pair {
        name: b"x",
        value: b"<&",
    }];
    fills(&rt, alloc, "a@{x}b@{raw:x}@", &x, "a&lt;&amp;b<&@");
    fills(&rt, alloc, "", &x, "");
    fills(&rt, alloc, "@@{x}@", &x, "@&lt;&amp;@");
    fills(&rt, alloc, "a@b.example {x}", &x, "a@b.example {x}");
    let quotes = [Pair {
        name: b"x",
        value: b"\"'>",
    }];
    fills(&rt, alloc, "@{x}@{raw:x}", &quotes, "&quot;&#39;&gt;\"'>");
    // The first pair with the name; a name has no colon.
    let two = [
        Pair {
            name: b"raw",
            value: b"1",
        },
        Pair {
            name: b"raw",
            value: b"2",
        },
    ];
    fills(&rt, alloc, "@{raw}@{raw:raw}", &two, "11");
    // What a value brings isn't read again.
    let at = [Pair {
        name: b"x",
        value: b"@{y}",
    }];
    fills(&rt, alloc, "@{x}", &at, "@{y}");
}

#[test]
fn templates_are_refused(rt: HostRuntime) {
    let alloc = rt.alloc();
    let x = [Pair {
        name: b"x",
        value: b"<&",
    }];
    refuses(&rt, alloc, "@{x", &x, 0, 1);
    refuses(&rt, alloc, "b@{y}", &x, 1, 2);
    refuses(&rt, alloc, "@{}", &x, 0, 1);
    refuses(&rt, alloc, "@{raw:}", &x, 0, 1);
    refuses(&rt, alloc, "@{Raw:x}", &x, 0, 1);
    refuses(&rt, alloc, "@{raw:y}", &x, 0, 2);
    refuses(&rt, alloc, "@{a@{x}}", &x, 0, 1);
    // The leftmost place, whichever rule it breaks.
    refuses(&rt, alloc, "@{x}@{y}@{", &x, 4, 2);
    refuses(&rt, alloc, "@{x}@{@{y}", &x, 4, 1);
}

#[test]
fn a_text_may_be_just_as_long(rt: HostRuntime) {
    let alloc = rt.alloc();
    let value = vec![in alloc; b'a'; LONGEST_FILLED].expect(&rt, MEMORY);
    let x = [Pair {
        name: b"x",
        value: &value,
    }];
    match filled(&rt, alloc, b"@{x}", &x) {
        Ok(text) => holds(&rt, text.len() == LONGEST_FILLED, "as long as it may be"),
        Err(_) => panic!(rt; "refused"),
    }
    refuses(&rt, alloc, "@{x}.", &x, 5, 3);
    refuses(&rt, alloc, "@{x}@{x}@{y}", &x, 8, 2);
}
