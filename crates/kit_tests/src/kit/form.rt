//! Values of forms.

use crate::holding::{MEMORY, holds};
use svc_kit::form::value_of;

#[test]
fn first_pairs(rt: HostRuntime) {
    let form = b"id=3&who=c+y%21&note=x&id=4&&empty";
    for (name, value) in [
        ("id", Some("3")),
        ("who", Some("c y!")),
        ("note", Some("x")),
        ("empty", Some("")),
        ("i", None),
    ] {
        let found = value_of(rt.alloc(), form, name).expect(&rt, MEMORY);
        holds(&rt, found.as_deref() == value, name);
    }
}
