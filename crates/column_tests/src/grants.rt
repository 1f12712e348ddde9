//! What stands, tokens and sessions of a column by a few calls.

use crate::holding::{MEMORY, holds};
use grant_column::Grants;
use okws_base::value::Token;

const FIRST: Token = Token { bytes: [1; 20] };

const SECOND: Token = Token { bytes: [2; 20] };

#[test]
fn grants_are_kept(rt: HostRuntime) {
    let alloc = rt.alloc();
    let mut grants = Grants::new(alloc, 2).expect(&rt, MEMORY);
    grants.install(1, 1, Some(FIRST)).expect(&rt, MEMORY);
    grants.install(1, 3, Some(SECOND)).expect(&rt, MEMORY);
    holds(&rt, grants.standing(1) == Some(3), "stands");
    holds(&rt, grants.standing(0) == None, "nobody");
    holds(&rt, grants.last(1) == 3, "last");
    holds(&rt, grants.issued(1, &FIRST) == Some(1), "issued");
    holds(&rt, grants.issued(0, &FIRST) == None, "not issued");
    grants.revoke(1, 1);
    holds(&rt, grants.places() == 1, "one place");
    grants.revoke(1, 3);
    holds(&rt, grants.places() == 0, "no place");
}

#[test]
fn sessions_are_numbered(rt: HostRuntime) {
    let alloc = rt.alloc();
    let mut grants = Grants::new(alloc, 1).expect(&rt, MEMORY);
    grants.install(0, 1, None).expect(&rt, MEMORY);
    holds(&rt, grants.admit(0, 1) == 0, "first");
    holds(&rt, grants.admit(0, 1) == 1, "second");
    grants.install(0, 2, None).expect(&rt, MEMORY);
    holds(&rt, grants.opened(0, 1) == 2, "of the first");
    holds(&rt, grants.opened(0, 2) == 0, "of the second");
}
