//! Dialogs and turns that stand open at once.

use crate::gate::{Coming, Held, Hold};
use crate::holding::{MEMORY, holds, same};
use crate::outside::{Ended, Plan, REPLIED, bytes, child, client, get, own, plain, serve};
use okws_outer::gate::Point;
use std::alloc::Global;
use std::process::Abort;
use std::sync::Wait;
use std::sync::atomic::{AtomicU64, Ordering};
use std::thread::Threads;

/// Three services at two proxies; the third one has no path.
const SITE: &str = "okws 1\n\
    proxy main\n\
    table main msgs id INT KEY who TEXT note TEXT\n\
    row main msgs 1 'ann' 'hi'\n\
    query main 1 SELECT id, who FROM msgs ORDER BY id\n\
    proxy side\n\
    table side t n INT\n\
    query side 1 SELECT n FROM t\n\
    service guest ./svc_guest\n\
    service other ./svc_probe\n\
    service third ./svc_probe\n\
    uri /guest guest\n\
    uri /other other\n\
    grant guest main 1\n\
    grant guest side 1\n\
    grant other side 1\n";

/// Open and Call of query 1 by guest at main, and a Reply.
const GUEST: &str = "000000174100000000000000000001ade0b876903df1a0e56a5d40\
    0000000a42000000000000000100\
    000000154500c80a746578742f706c61696e00000000026f6b";

/// The same by other at side.
const OTHER: &str = "000000174100010001000100000001803bd33d34166309ac421ed2\
    0000000a42000100000000000100\
    000000154500c80a746578742f706c61696e00000000026f6b";

/// The first dialog of guest, and of other, has its Request.
const GUEST_REQUESTED: Coming = Coming {
    point: Point::Requested,
    number: 0,
    time: 1,
};

const OTHER_REQUESTED: Coming = Coming {
    point: Point::Requested,
    number: 1,
    time: 1,
};

/// The first Call at main, and at side.
const MAIN_CALLED: Coming = Coming {
    point: Point::Called,
    number: 0,
    time: 1,
};

const SIDE_CALLED: Coming = Coming {
    point: Point::Called,
    number: 1,
    time: 1,
};

/// One client is answered.
const ANSWERED: Coming = Coming {
    point: Point::Answered,
    number: 0,
    time: 1,
};

/// The board shows the second incarnation of guest, and of the third service.
const GUEST_RAISED: Coming = Coming {
    point: Point::Raised,
    number: 0,
    time: 2,
};

const THIRD_RAISED: Coming = Coming {
    point: Point::Raised,
    number: 2,
    time: 2,
};

/// What a client of each service is answered by two doors, and the bits of the connections that the gate saw answered.
#[derive(Drop)]
struct Two {
    ended: Ended,
    guest: Vec<u8>,
    other: Vec<u8>,
    answered: u64,
}

/// What the client with this request was answered.
fn answer_to(rt: &impl Abort, alloc: Global, ended: &Ended, request: &str) -> Vec<u8> {
    for (asked, answer) in ended.asked.iter().zip(ended.answers.iter()) {
        if asked.as_slice() == request.as_bytes() {
            return Vec::from_slice(alloc, answer).expect(rt, MEMORY);
        }
    }
    panic!(rt; "nobody asked so")
}

/// Two doors serve a client of guest and one of other, with these holds at the gate.
fn both<'x, R: Abort + AllocGlobal + Wait + Threads + Sync>(
    rt: &'x R,
    holds: &'x [Hold],
    console: &[u8],
) -> Two {
    let alloc = rt.alloc();
    let (guest, other) = (get(rt, alloc, "/guest"), get(rt, alloc, "/other"));
    let (guest_says, other_says) = (bytes(rt, alloc, GUEST), bytes(rt, alloc, OTHER));
    let console = Vec::from_slice(alloc, console).expect(rt, MEMORY);
    let plan = Plan {
        site: SITE,
        words: &[
            "serve", "site", "--port", "8080", "--doors", "2", "--serve", "2",
        ],
        clients: &[client(guest.as_bytes()), client(other.as_bytes())],
        children: &[child(0, 1, &guest_says), child(1, 1, &other_says)],
        console: &console,
        ..plain()
    };
    let answered = AtomicU64::new(0);
    let ended = serve(rt, alloc, &plan, Held::new(rt, holds, &answered));
    let guest = answer_to(rt, alloc, &ended, &guest);
    let other = answer_to(rt, alloc, &ended, &other);
    Two {
        ended,
        guest,
        other,
        answered: answered.load(Ordering::SeqCst),
    }
}

/// The dialog of guest is held until other's client is answered and guest's relaunch is begun, which begins
/// only once the dialog is held.
const RELAUNCHED: [Hold; 3] = [
    Hold {
        name: "a dialog of guest is held",
        at: GUEST_REQUESTED,
        until: ANSWERED,
    },
    Hold {
        name: "a relaunch of third is held",
        at: THIRD_RAISED,
        until: GUEST_REQUESTED,
    },
    Hold {
        name: "a dialog of other is held",
        at: OTHER_REQUESTED,
        until: GUEST_RAISED,
    },
];

#[test]
fn a_dialog_of_a_relaunched_service_is_superseded(rt: HostRuntime) {
    let two = both(&rt, &RELAUNCHED, b"relaunch third\nrelaunch guest\n");
    let want = own(&rt, rt.alloc(), "503 Service Unavailable");
    same(&rt, &two.guest, want.as_bytes());
    same(&rt, &two.other, REPLIED.as_bytes());
    same(&rt, &two.ended.console, b"relaunched 2\nrelaunched 2\n");
    holds(&rt, two.answered == 0b11, "connections 0 and 1");
}

/// Both clients are told what their services reply.
fn are_replied<R: Abort + AllocGlobal + Wait + Threads + Sync>(rt: &R, holds: &[Hold]) -> bool {
    let two = both(rt, holds, b"");
    two.guest.as_slice() == REPLIED.as_bytes() && two.other.as_slice() == REPLIED.as_bytes()
}

#[test]
fn a_held_turn_at_a_proxy_holds_nobody_at_another(rt: HostRuntime) {
    let held = [Hold {
        name: "a Call at main is held",
        at: MAIN_CALLED,
        until: ANSWERED,
    }];
    holds(&rt, are_replied(&rt, &held), "replied");
}

#[test]
fn two_dialogs_stand_open_at_once(rt: HostRuntime) {
    let held = [
        Hold {
            name: "a dialog of guest is held",
            at: GUEST_REQUESTED,
            until: OTHER_REQUESTED,
        },
        Hold {
            name: "a dialog of other is held",
            at: OTHER_REQUESTED,
            until: GUEST_REQUESTED,
        },
    ];
    holds(&rt, are_replied(&rt, &held), "replied");
}

#[test]
fn two_turns_at_proxies_stand_open_at_once(rt: HostRuntime) {
    let held = [
        Hold {
            name: "a Call at main is held",
            at: MAIN_CALLED,
            until: SIDE_CALLED,
        },
        Hold {
            name: "a Call at side is held",
            at: SIDE_CALLED,
            until: MAIN_CALLED,
        },
    ];
    holds(&rt, are_replied(&rt, &held), "replied");
}
