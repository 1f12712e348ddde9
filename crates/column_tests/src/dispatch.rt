//! The dispatcher's column. Not tested here: many paths and many entries.

use crate::holding::{MEMORY, holds};
use crate::site::{bytes, config, entries, shared};
use monitor_model::verdict::Way;
use okd_dispatch::Okd;
use std::alloc::Global;
use std::marker::Model;
use std::process::Abort;
use turn_lock::Journaled;

const GUEST: u16 = 0;

const OTHER: u16 = 1;

const SITE: &str = "okws 1
service guest ./svc_guest
service other ./svc_probe
uri /guest guest
uri /other other
uri /guest/others other
uri /files/ guest
";

// Each path, and its owner, if it has one.
const OWNERS: [(&[u8], Option<u16>); 9] = [
    (b"/guest", Some(GUEST)),
    (b"/guest/x", Some(GUEST)),
    (b"/guestx", None),
    (b"/%67uest", None),
    (b"/guest/others", Some(OTHER)),
    (b"/guest/others/x", Some(OTHER)),
    (b"/guest/othersx", Some(GUEST)),
    (b"/files/x", Some(GUEST)),
    (b"/files", None),
];

// The column of a site with two services.
#[derive(Drop)]
struct Column {
    okd: Okd,
}

impl Model for Column {
    ghost use Rattle.okd_dispatch.specs.Seen.{Seen};
    ghost use Rattle.std.specs.Prelude.{◌≡◌, length};

    ghost Value = { Seen };

    ghost view = { λ a. a.okd };

    ghost invariant = { λ a. length a.okd.config.services ≡ 2 };
}

impl Column {
    // Its entries are kept or not.
    fn new(rt: &impl Abort, alloc: Global, keeps: bool) -> Self {
        let config = config(rt, alloc, SITE);
        assert!(rt; config.services.as_slice().len() == 2);
        let okd = Okd::new(alloc, shared(rt, alloc, config), keeps).expect(rt, MEMORY);
        Column { okd }
    }

    fn up(&mut self, rt: &impl Abort, service: u16, incarnation: u32) {
        assert!(rt; service <= OTHER && incarnation != 0);
        self.okd.up(service, incarnation).expect(rt, MEMORY);
    }

    fn down(&mut self, service: u16, incarnation: u32) {
        if service <= OTHER {
            self.okd.down(service, incarnation);
        }
    }

    // A request with this path goes this way.
    fn goes(&mut self, rt: &impl Abort, alloc: Global, path: &[u8], want: Way) {
        let way = self.okd.accept(bytes(rt, alloc, path)).expect(rt, MEMORY);
        holds(rt, way == want, "another way");
    }

    fn hold(&mut self, number: u16) {
        self.okd.hold(number);
    }
}

fn to(incarnation: u32) -> Way {
    Way::To {
        service: GUEST,
        incarnation,
    }
}

#[test]
fn the_longest_path_owns(rt: HostRuntime) {
    let column = Column::new(&rt, rt.alloc(), true);
    for (path, owner) in &OWNERS {
        holds(&rt, column.okd.owner(path) == *owner, "an owner");
    }
}

#[test]
fn requests_go_where_the_owner_is_up(rt: HostRuntime) {
    let alloc = rt.alloc();
    let mut column = Column::new(&rt, alloc, false);
    column.goes(&rt, alloc, b"/guest", Way::Down(GUEST));
    column.up(&rt, GUEST, 1);
    column.goes(&rt, alloc, b"/guest/x", to(1));
    column.goes(&rt, alloc, b"/guestx", Way::NotOwned);
    column.up(&rt, GUEST, 2);
    column.down(GUEST, 1);
    column.goes(&rt, alloc, b"/guest", to(2));
    column.down(GUEST, 2);
    column.goes(&rt, alloc, b"/guest", Way::Down(GUEST));
}

#[test]
fn entries_are_kept_in_order(rt: HostRuntime) {
    let mut column = Column::new(&rt, rt.alloc(), true);
    column.hold(7);
    column.up(&rt, OTHER, 3);
    holds(&rt, column.okd.standing(OTHER) == Some(3), "up");
    column.down(OTHER, 3);
    holds(&rt, column.okd.standing(OTHER) == None, "down");
    holds(&rt, column.okd.holder() == 7, "holder");
    let past = column.okd.close();
    holds(&rt, entries(&past) == Some(2), "entries");
}
